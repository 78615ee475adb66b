//! How definitions, functions and resource tables are tested, measured and added to a table.

ghost use Rattle.std.specs.Prelude.{◌≡◌, ◌≢◌, ◌+◌, ◌^◌, ◌&&◌, ◌||◌, ◌≤◌, ◌<◌, ◌++◌, ◌∷◌, [], All, true, false, filter_map, length, map, option_to_list, Some, None, IfOk, OnOk, IfErr, OnErr, string_bytes};
ghost use Rattle.std.specs.List.{list_all, list_any};
ghost use Rattle.std.specs.Result.{result_err};
ghost use Rattle.canon_abi.specs.Abi.{AreOfCases, AreOfMembers, HasInfo, HasLayout, TellsLayout, wider_size};
ghost use Rattle.canon_model.specs.Layout.{offset, size};
ghost use Rattle.canon_model.specs.Shape.{VariantKind, fixed, of_option, of_places, product, tuple, unnamed_members, variant};
ghost use Rattle.canon_types.specs.Depth.{deepest, has_borrow, member_borrows};
ghost use Rattle.canon_types.specs.Keeps.{IsEntry, KeepsLayout, cases_type, definition_of, entry_of, fields_type, names_of};
ghost use Rattle.canon_types.specs.Laid.{AreLaid, ArePayloadsLaid, IsPayloadLaid, unnamed_cases};
ghost use Rattle.canon_types.specs.Measured.{IsMeasured, MakeTuple, measure_refusal};
ghost use Rattle.canon_types.specs.Refusal.{Adds, AddsFunc, AddsResource, func_parts_refusal, func_refusal, is_full_for, refusal, is_unit_type, resource_refusal, with_definition, with_func_of};
ghost use Rattle.canon_types.specs.Table.{EnumType, FixedListType, FlagsType, Knows, KnowsPayload, ListType, MapType, OptionType, ResultType, TupleType, all_shapes, defined_shape, is_tuple, knows, members_of, shape_of};

use super::names::{MAX_FLAGS, MAX_NAMES, case_map, check_fields, check_name_count, name_set};
use super::{ComponentTypes, Entry, Item, MAX_DEPTH, TupleEntry};
use crate::{
    InterfaceType, RecordField, TypeEnum, TypeEnumIndex, TypeError, TypeFixedLengthList,
    TypeFixedLengthListIndex, TypeFlags, TypeFlagsIndex, TypeFunc, TypeFuncIndex, TypeList,
    TypeListIndex, TypeMap, TypeMapIndex, TypeOption, TypeOptionIndex, TypeRecord, TypeRecordIndex,
    TypeResourceTable, TypeResourceTableIndex, TypeResult, TypeResultIndex, TypeTuple,
    TypeTupleIndex, TypeVariant, TypeVariantIndex,
};
use canon_abi::{CanonicalAbiInfo, VariantInfo};

impl ComponentTypes {
    /// The depth of a type of these parts, and whether a borrowed handle occurs in it.
    fn measure(&self, parts: &[InterfaceType]) -> Result<(u32, bool), TypeError>
        requires { All (Knows self.now) parts.now }
        ensures depth { IfOk result (λ m. m.0 ≡ 1 + deepest (members_of self.now parts.now)) }
        ensures borrows { IfOk result (λ m. m.1 ≡ member_borrows (members_of self.now parts.now)) }
        ensures fits { IfOk result (λ m. m.0 ≤ 100) }
        ensures cause { IfErr result (λ e. (e ≡ TypeError.TooDeep) × (100 < 1 + deepest (members_of self.now parts.now))) }
    {
        let deepest = self.deepest(parts);
        if deepest >= MAX_DEPTH {
            return Err(TypeError::TooDeep);
        }
        Ok((deepest + 1, self.any_borrow(parts)))
    }

    /// Tests the types that a new type is to have as parts, and measures them.
    fn measure_parts(
        &self,
        parts: &[InterfaceType],
        is_empty: bool,
    ) -> Result<(u32, bool), TypeError>
        ensures refusal { result_err result ≡ measure_refusal self.now parts.now is_empty }
        ensures known { OnOk result (All (Knows self.now) parts.now) }
        ensures depth { IfOk result (λ m. m.0 ≡ 1 + deepest (members_of self.now parts.now)) }
        ensures borrows { IfOk result (λ m. m.1 ≡ member_borrows (members_of self.now parts.now)) }
    {
        self.check_parts(parts, is_empty)?;
        self.measure(parts)
    }

    /// Tests that the table takes so many further entries.
    fn check_room(&self, more: usize) -> Result<(), TypeError>
        requires { more < 2 ^ 32 }
        ensures fits { OnOk result (is_full_for more self.now ≡ false) }
        ensures cause { IfErr result (λ e. (e ≡ TypeError.TooManyTypes) × (is_full_for more self.now ≡ true)) }
    {
        if self.is_full_for(more) {
            return Err(TypeError::TooManyTypes);
        }
        Ok(())
    }

    /// Adds an entry at the end, if there is room, and tells its number.
    fn enter(&mut self, entry: Entry) -> Result<u32, TypeError>
        requires measured { IsMeasured self.old (definition_of entry.item) entry.depth entry.has_borrow }
        requires layout { KeepsLayout entry.item (defined_shape (all_shapes self.old) (definition_of entry.item)) }
        ensures ok { IfOk result (λ i. (i ≡ length self.old.definitions) × (self.new ≡ with_definition self.old (definition_of entry.item))) }
        ensures fits { OnOk result (refusal self.old (definition_of entry.item) ≡ None) }
        ensures err { OnErr result (self.new ≡ self.old) }
        ensures cause { IfErr result (λ e. e ≢ TypeError.OutOfMemory → refusal self.old (definition_of entry.item) ≡ Some e) }
    {
        self.check_room(1)?;
        let place = self.entries.len() as u32;
        self.entries.push(entry)?;
        Ok(place)
    }

    /// The numbers of members of these types.
    fn record_abi(&self, types: &[InterfaceType]) -> Result<CanonicalAbiInfo, TypeError>
        requires { All (Knows self.now) types.now }
        ensures ok { IfOk result (λ abi. HasLayout abi (product of_places (members_of self.now types.now))) }
        ensures fits { OnOk result (wider_size (product of_places (members_of self.now types.now)) < 2 ^ 32) }
        ensures cause { IfErr result (λ e. e ≢ TypeError.OutOfMemory → (e ≡ TypeError.SizeTooLarge) × (2 ^ 32 ≤ wider_size (product of_places (members_of self.now types.now)))) }
    {
        let abis = self.abis(types)?;
        match CanonicalAbiInfo::record(&abis) {
            Some(abi) => Ok(abi),
            None => Err(TypeError::SizeTooLarge),
        }
    }

    /// The numbers of each of these types.
    fn abis(&self, types: &[InterfaceType]) -> Result<Vec<CanonicalAbiInfo>, TypeError>
        requires { All (Knows self.now) types.now }
        ensures ok { IfOk result (λ abis. AreLaid (all_shapes self.now) abis.items types.now) }
        ensures cause { IfErr result (λ e. e ≡ TypeError.OutOfMemory) }
    {
        let mut abis = Vec::new(*self.entries.allocator());
        for ty in types {
            abis.push(*self.canonical_abi(ty))?;
        }
        Ok(abis)
    }

    /// The numbers of a variant of such cases.
    fn variant_abi(
        &self,
        payloads: &[Option<InterfaceType>],
    ) -> Result<(CanonicalAbiInfo, VariantInfo), TypeError>
        requires known { All (KnowsPayload self.now) payloads.now }
        requires some { 1 ≤ length payloads.now }
        requires few { length payloads.now ≤ 2 ^ 32 }
        ensures abi { IfOk result (λ p. HasLayout p.0 (variant of_option (unnamed_cases (all_shapes self.now) payloads.now))) }
        ensures info { IfOk result (λ p. HasInfo p.1 (unnamed_cases (all_shapes self.now) payloads.now)) }
        ensures fits { OnOk result (wider_size (variant of_option (unnamed_cases (all_shapes self.now) payloads.now)) < 2 ^ 32) }
        ensures cause { IfErr result (λ e. e ≢ TypeError.OutOfMemory → (e ≡ TypeError.SizeTooLarge) × (2 ^ 32 ≤ wider_size (variant of_option (unnamed_cases (all_shapes self.now) payloads.now)))) }
    {
        let abis = self.payload_abis(payloads)?;
        let told = abis.as_slice();
        match CanonicalAbiInfo::variant(told) {
            Some(told) => Ok(told),
            None => Err(TypeError::SizeTooLarge),
        }
    }

    /// The numbers of each of these payloads.
    fn payload_abis(
        &self,
        payloads: &[Option<InterfaceType>],
    ) -> Result<Vec<Option<CanonicalAbiInfo>>, TypeError>
        requires { All (KnowsPayload self.now) payloads.now }
        ensures ok { IfOk result (λ abis. ArePayloadsLaid (all_shapes self.now) abis.items payloads.now) }
        ensures cause { IfErr result (λ e. e ≡ TypeError.OutOfMemory) }
    {
        let mut abis = Vec::new(*self.entries.allocator());
        for payload in payloads {
            abis.push(self.payload_abi(payload))?;
        }
        Ok(abis)
    }

    fn payload_abi(&self, payload: &Option<InterfaceType>) -> Option<CanonicalAbiInfo>
        requires { KnowsPayload self.now payload.now }
        ensures { IsPayloadLaid (all_shapes self.now) result payload.now }
    {
        match payload {
            Some(ty) => Some(*self.canonical_abi(ty)),
            None => None,
        }
    }

    /// The types of the fields.
    fn field_types(&self, fields: &[RecordField]) -> Result<Vec<InterfaceType>, TypeError>
        ensures ok { IfOk result (λ types. types.items ≡ map (λ f. f.ty) fields.now) }
        ensures cause { IfErr result (λ e. e ≡ TypeError.OutOfMemory) }
    {
        let alloc = *self.entries.allocator();
        let types = fields.iter().map(|field| field.ty).collect(alloc)?;
        Ok(types)
    }

    /// The payloads of the cases.
    fn case_payloads(
        &self,
        cases: &[(String, Option<InterfaceType>)],
    ) -> Result<Vec<Option<InterfaceType>>, TypeError>
        ensures ok { IfOk result (λ payloads. payloads.items ≡ map (λ c. c.1) cases.now) }
        ensures cause { IfErr result (λ e. e ≡ TypeError.OutOfMemory) }
    {
        let mut payloads = Vec::new(*self.entries.allocator());
        for case in cases {
            payloads.push(case.1)?;
        }
        Ok(payloads)
    }

    /// The types that are there.
    fn payload_types(
        &self,
        payloads: &[Option<InterfaceType>],
    ) -> Result<Vec<InterfaceType>, TypeError>
        ensures ok { IfOk result (λ types. types.items ≡ filter_map (λ p. p) payloads.now) }
        ensures cause { IfErr result (λ e. e ≡ TypeError.OutOfMemory) }
    {
        let alloc = *self.entries.allocator();
        let types = payloads
            .iter()
            .filter_map(|payload| *payload)
            .collect(alloc)?;
        Ok(types)
    }

    pub(super) fn add_list(&mut self, element: InterfaceType) -> Result<InterfaceType, TypeError>
        ensures ok { IfOk result (λ ty. Adds self.old (ListType element) ty self.new) }
        ensures err { OnErr result (self.new ≡ self.old) }
        ensures cause { IfErr result (λ e. e ≢ TypeError.OutOfMemory → refusal self.old (ListType element) ≡ Some e) }
    {
        let parts = [element];
        let (depth, has_borrow) = self.measure_parts(&parts, false)?;
        let item = Item::List(TypeList { element: parts[0] });
        let place = self.enter(Entry {
            item,
            depth,
            has_borrow,
        })?;
        Ok(InterfaceType::List(TypeListIndex::from_u32(place)))
    }

    pub(super) fn add_tuple(
        &mut self,
        types: Vec<InterfaceType>,
    ) -> Result<InterfaceType, TypeError>
        ensures ok { IfOk result (λ ty. Adds self.old (TupleType types.items) ty self.new) }
        ensures err { OnErr result (self.new ≡ self.old) }
        ensures cause { IfErr result (λ e. e ≢ TypeError.OutOfMemory → refusal self.old (TupleType types.items) ≡ Some e) }
    {
        let parts = types.as_slice();
        let (depth, has_borrow) = self.measure_parts(parts, parts.is_empty())?;
        let abi = self.record_abi(parts)?;
        let item = Item::Tuple(TypeTuple { types, abi });
        let place = self.enter(Entry {
            item,
            depth,
            has_borrow,
        })?;
        Ok(InterfaceType::Tuple(TypeTupleIndex::from_u32(place)))
    }

    pub(super) fn add_record(
        &mut self,
        fields: Vec<RecordField>,
    ) -> Result<InterfaceType, TypeError>
        ensures ok { IfOk result (λ ty. Adds self.old (fields_type fields.items) ty self.new) }
        ensures err { OnErr result (self.new ≡ self.old) }
        ensures cause { IfErr result (λ e. e ≢ TypeError.OutOfMemory → refusal self.old (fields_type fields.items) ≡ Some e) }
    {
        let (abi, depth, has_borrow) = self.measure_fields(&fields)?;
        let item = Item::Record(TypeRecord { fields, abi });
        let place = self.enter(Entry {
            item,
            depth,
            has_borrow,
        })?;
        Ok(InterfaceType::Record(TypeRecordIndex::from_u32(place)))
    }

    /// Tests the fields of a record, and tells its numbers, its depth, and whether a borrowed handle occurs in it.
    fn measure_fields(
        &self,
        fields: &[RecordField],
    ) -> Result<(CanonicalAbiInfo, u32, bool), TypeError>
        ensures measured { IfOk result (λ m. IsMeasured self.now (fields_type fields.now) m.1 m.2) }
        ensures abi { IfOk result (λ m. HasLayout m.0 (defined_shape (all_shapes self.now) (fields_type fields.now))) }
        ensures cause { IfErr result (λ e. e ≢ TypeError.OutOfMemory → refusal self.now (fields_type fields.now) ≡ Some e) }
    {
        let types = self.field_types(fields)?;
        self.measure_record(fields, types.as_slice())
    }

    /// The same, where the types of the fields are given.
    fn measure_record(
        &self,
        fields: &[RecordField],
        parts: &[InterfaceType],
    ) -> Result<(CanonicalAbiInfo, u32, bool), TypeError>
        requires { parts.now ≡ map (λ f. f.ty) fields.now }
        ensures measured { IfOk result (λ m. IsMeasured self.now (fields_type fields.now) m.1 m.2) }
        ensures abi { IfOk result (λ m. HasLayout m.0 (defined_shape (all_shapes self.now) (fields_type fields.now))) }
        ensures cause { IfErr result (λ e. e ≢ TypeError.OutOfMemory → refusal self.now (fields_type fields.now) ≡ Some e) }
    {
        self.check_parts(parts, parts.is_empty())?;
        check_fields(*self.entries.allocator(), fields)?;
        let (depth, has_borrow) = self.measure(parts)?;
        let abi = self.record_abi(parts)?;
        Ok((abi, depth, has_borrow))
    }

    pub(super) fn add_map(
        &mut self,
        key: InterfaceType,
        value: InterfaceType,
    ) -> Result<InterfaceType, TypeError>
        ensures ok { IfOk result (λ ty. Adds self.old (MapType key value) ty self.new) }
        ensures err { OnErr result (self.new ≡ self.old) }
        ensures cause { IfErr result (λ e. e ≢ TypeError.OutOfMemory → refusal self.old (MapType key value) ≡ Some e) }
    {
        let parts = [key, value];
        let (depth, has_borrow) = self.measure_parts(&parts, false)?;
        let entry_abi = self.record_abi(&parts)?;
        let value_offset32 = self.value_offset(false, &parts[0], &parts[1]);
        let value_offset64 = self.value_offset(true, &parts[0], &parts[1]);
        let item = Item::Map(TypeMap {
            key: parts[0],
            value: parts[1],
            entry_abi,
            value_offset32,
            value_offset64,
        });
        let place = self.enter(Entry {
            item,
            depth,
            has_borrow,
        })?;
        Ok(InterfaceType::Map(TypeMapIndex::from_u32(place)))
    }

    /// Where the value of a pair begins, for pointers of one width.
    fn value_offset(&self, wide: bool, key: &InterfaceType, value: &InterfaceType) -> u32
        requires key { Knows self.now key.now }
        requires value { Knows self.now value.now }
        requires fits { size wide (tuple (shape_of self.now key.now ∷ shape_of self.now value.now ∷ [])) < 2 ^ 32 }
        ensures { result ≡ offset wide (unnamed_members (shape_of self.now key.now ∷ shape_of self.now value.now ∷ [])) 1 }
    {
        let mut end = 0;
        self.canonical_abi(key).next_field(wide, &mut end);
        self.canonical_abi(value).next_field(wide, &mut end) as u32
    }

    pub(super) fn add_variant(
        &mut self,
        cases: Vec<(String, Option<InterfaceType>)>,
    ) -> Result<InterfaceType, TypeError>
        ensures ok { IfOk result (λ ty. Adds self.old (cases_type cases.items) ty self.new) }
        ensures err { OnErr result (self.new ≡ self.old) }
        ensures cause { IfErr result (λ e. e ≢ TypeError.OutOfMemory → refusal self.old (cases_type cases.items) ≡ Some e) }
    {
        let listed = self.case_payloads(&cases)?;
        let payloads = listed.as_slice();
        let types = self.payload_types(payloads)?;
        let parts = types.as_slice();
        self.check_parts(parts, payloads.is_empty())?;
        let cases = case_map(*self.entries.allocator(), cases)?;
        let (depth, has_borrow) = self.measure(parts)?;
        let (abi, info) = self.variant_abi(payloads)?;
        let item = Item::Variant(TypeVariant { cases, abi, info });
        let place = self.enter(Entry {
            item,
            depth,
            has_borrow,
        })?;
        Ok(InterfaceType::Variant(TypeVariantIndex::from_u32(place)))
    }

    pub(super) fn add_enum(&mut self, names: Vec<String>) -> Result<InterfaceType, TypeError>
        ensures ok { IfOk result (λ ty. Adds self.old (EnumType (names_of names.items)) ty self.new) }
        ensures err { OnErr result (self.new ≡ self.old) }
        ensures cause { IfErr result (λ e. e ≢ TypeError.OutOfMemory → refusal self.old (EnumType (names_of names.items)) ≡ Some e) }
    {
        let count = names.as_slice().len();
        check_name_count(count, MAX_NAMES)?;
        let (abi, info) = CanonicalAbiInfo::enum_(count as u64);
        let names = name_set(*self.entries.allocator(), names)?;
        let item = Item::Enum(TypeEnum { names, abi, info });
        let place = self.enter(Entry {
            item,
            depth: 1,
            has_borrow: false,
        })?;
        Ok(InterfaceType::Enum(TypeEnumIndex::from_u32(place)))
    }

    pub(super) fn add_flags(&mut self, names: Vec<String>) -> Result<InterfaceType, TypeError>
        ensures ok { IfOk result (λ ty. Adds self.old (FlagsType (names_of names.items)) ty self.new) }
        ensures err { OnErr result (self.new ≡ self.old) }
        ensures cause { IfErr result (λ e. e ≢ TypeError.OutOfMemory → refusal self.old (FlagsType (names_of names.items)) ≡ Some e) }
    {
        let count = names.as_slice().len();
        check_name_count(count, MAX_FLAGS)?;
        let abi = CanonicalAbiInfo::flags(count as u64);
        let names = name_set(*self.entries.allocator(), names)?;
        let item = Item::Flags(TypeFlags { names, abi });
        let place = self.enter(Entry {
            item,
            depth: 1,
            has_borrow: false,
        })?;
        Ok(InterfaceType::Flags(TypeFlagsIndex::from_u32(place)))
    }

    pub(super) fn add_option(&mut self, ty: InterfaceType) -> Result<InterfaceType, TypeError>
        ensures ok { IfOk result (λ t. Adds self.old (OptionType ty) t self.new) }
        ensures err { OnErr result (self.new ≡ self.old) }
        ensures cause { IfErr result (λ e. e ≢ TypeError.OutOfMemory → refusal self.old (OptionType ty) ≡ Some e) }
    {
        let parts = [ty];
        let (depth, has_borrow) = self.measure_parts(&parts, false)?;
        let (abi, info) = self.variant_abi(&[None, Some(parts[0])])?;
        let item = Item::Option(TypeOption {
            ty: parts[0],
            abi,
            info,
        });
        let place = self.enter(Entry {
            item,
            depth,
            has_borrow,
        })?;
        Ok(InterfaceType::Option(TypeOptionIndex::from_u32(place)))
    }

    pub(super) fn add_result(
        &mut self,
        ok: Option<InterfaceType>,
        err: Option<InterfaceType>,
    ) -> Result<InterfaceType, TypeError>
        ensures ok { IfOk result (λ ty. Adds self.old (ResultType ok err) ty self.new) }
        ensures err { OnErr result (self.new ≡ self.old) }
        ensures cause { IfErr result (λ e. e ≢ TypeError.OutOfMemory → refusal self.old (ResultType ok err) ≡ Some e) }
    {
        let payloads = [ok, err];
        let types = self.payload_types(&payloads)?;
        let parts = types.as_slice();
        let (depth, has_borrow) = self.measure_parts(parts, false)?;
        let (abi, info) = self.variant_abi(&payloads)?;
        let item = Item::Result(TypeResult {
            ok: payloads[0],
            err: payloads[1],
            abi,
            info,
        });
        let place = self.enter(Entry {
            item,
            depth,
            has_borrow,
        })?;
        Ok(InterfaceType::Result(TypeResultIndex::from_u32(place)))
    }

    pub(super) fn add_fixed_length_list(
        &mut self,
        element: InterfaceType,
        size: u32,
    ) -> Result<InterfaceType, TypeError>
        ensures ok { IfOk result (λ ty. Adds self.old (FixedListType element size) ty self.new) }
        ensures err { OnErr result (self.new ≡ self.old) }
        ensures cause { IfErr result (λ e. e ≢ TypeError.OutOfMemory → refusal self.old (FixedListType element size) ≡ Some e) }
    {
        let parts = [element];
        let (depth, has_borrow) = self.measure_parts(&parts, size == 0)?;
        let Some(abi) = self.fixed_abi(&parts[0], size) else {
            return Err(TypeError::SizeTooLarge);
        };
        let item = Item::FixedLengthList(TypeFixedLengthList {
            element: parts[0],
            size,
            abi,
        });
        let place = self.enter(Entry {
            item,
            depth,
            has_borrow,
        })?;
        Ok(InterfaceType::FixedLengthList(TypeFixedLengthListIndex::from_u32(place)))
    }

    /// The numbers of a list of so many elements.
    fn fixed_abi(&self, element: &InterfaceType, count: u32) -> Option<CanonicalAbiInfo>
        requires { Knows self.now element.now }
        ensures { TellsLayout result (fixed count (shape_of self.now element.now)) }
    {
        CanonicalAbiInfo::fixed_length_list(self.canonical_abi(element), u64::from(count))
    }

    /// Adds a function, and the tuples of its parameters and results.
    pub(super) fn add_func(
        &mut self,
        params: Vec<InterfaceType>,
        results: Vec<InterfaceType>,
        async_: bool,
    ) -> Result<TypeFuncIndex, TypeError>
        ensures ok { IfOk result (λ i. AddsFunc self.old params.items results.items async_ i self.new) }
        ensures err { OnErr result (self.new ≡ self.old) }
        ensures cause { IfErr result (λ e. e ≢ TypeError.OutOfMemory → func_refusal self.old params.items results.items ≡ Some e) }
    {
        let (params_abi, results_abi) = self.measure_func(&params, &results)?;
        let params = self.tuple_entry(params, params_abi);
        let results = self.tuple_entry(results, results_abi);
        self.push_func(params, results, async_)
    }

    /// Tests a function, and tells the numbers of its parameters and of its results.
    fn measure_func(
        &self,
        params: &[InterfaceType],
        results: &[InterfaceType],
    ) -> Result<(CanonicalAbiInfo, CanonicalAbiInfo), TypeError>
        ensures fits { OnOk result (func_refusal self.now params.now results.now ≡ None) }
        ensures room { OnOk result (is_full_for 3 self.now ≡ false) }
        ensures params { IfOk result (λ abis. MakeTuple self.now params.now abis.0) }
        ensures results { IfOk result (λ abis. MakeTuple self.now results.now abis.1) }
        ensures borrows { OnOk result (member_borrows (members_of self.now results.now) ≡ false) }
        ensures cause { IfErr result (λ e. e ≢ TypeError.OutOfMemory → func_refusal self.now params.now results.now ≡ Some e) }
    {
        self.check_func_parts(params, results)?;
        let params_deepest = self.deepest(params);
        let results_deepest = self.deepest(results);
        if params_deepest.max(results_deepest) >= MAX_DEPTH {
            return Err(TypeError::TooDeep);
        }
        let params_abi = self.record_abi(params)?;
        let results_abi = self.record_abi(results)?;
        if self.any_borrow(results) {
            return Err(TypeError::BorrowInResult);
        }
        self.check_room(3)?;
        Ok((params_abi, results_abi))
    }

    fn check_func_parts(
        &self,
        params: &[InterfaceType],
        results: &[InterfaceType],
    ) -> Result<(), TypeError>
        ensures { result_err result ≡ func_parts_refusal self.now params.now results.now }
    {
        if !self.both_known(params, results) {
            return Err(TypeError::UnknownIndex);
        }
        if self.either_unit(params, results) {
            return Err(TypeError::Empty);
        }
        Ok(())
    }

    /// Whether each parameter and each result is known.
    fn both_known(&self, params: &[InterfaceType], results: &[InterfaceType]) -> bool
        ensures { result ≡ (list_all (knows self.now) params.now && list_all (knows self.now) results.now) }
    {
        self.all_known(params) && self.all_known(results)
    }

    /// Whether a parameter or a result is a tuple without members.
    fn either_unit(&self, params: &[InterfaceType], results: &[InterfaceType]) -> bool
        ensures { result ≡ (list_any (is_unit_type self.now) params.now || list_any (is_unit_type self.now) results.now) }
    {
        self.any_unit(params) || self.any_unit(results)
    }

    /// The entry of a tuple of these types and numbers, which may have no members.
    fn tuple_entry(&self, types: Vec<InterfaceType>, abi: CanonicalAbiInfo) -> TupleEntry
        requires { MakeTuple self.now types.items abi }
        ensures definition { definition_of (entry_of result).item ≡ TupleType types.items }
        ensures entry { IsEntry self.now (defined_shape (all_shapes self.now) (definition_of (entry_of result).item)) (entry_of result) }
        ensures borrows { result.has_borrow ≡ member_borrows (members_of self.now types.items) }
    {
        let depth = self.deepest(&types) + 1;
        let has_borrow = self.any_borrow(&types);
        TupleEntry {
            tuple: TypeTuple { types, abi },
            depth,
            has_borrow,
        }
    }

    /// Adds two tuples and a function over them, all or none.
    fn push_func(
        &mut self,
        params: TupleEntry,
        results: TupleEntry,
        async_: bool,
    ) -> Result<TypeFuncIndex, TypeError>
        requires room { is_full_for 3 self.old ≡ false }
        requires params_entry { IsEntry self.old (defined_shape (all_shapes self.old) (definition_of (entry_of params).item)) (entry_of params) }
        requires results_entry { IsEntry self.old (defined_shape (all_shapes self.old) (definition_of (entry_of results).item)) (entry_of results) }
        requires params_tuple { is_tuple (definition_of (entry_of params).item) ≡ true }
        requires results_tuple { is_tuple (definition_of (entry_of results).item) ≡ true }
        requires results_plain { results.has_borrow ≡ false }
        ensures ok { IfOk result (λ i. (i ≡ length self.old.funcs) × (self.new ≡ with_func_of self.old (definition_of (entry_of params).item) (definition_of (entry_of results).item) async_)) }
        ensures err { OnErr result (self.new ≡ self.old) }
        ensures cause { IfErr result (λ e. e ≡ TypeError.OutOfMemory) }
    {
        self.entries.reserve(2)?;
        self.funcs.reserve(1)?;
        let place = self.entries.len() as u32;
        let index = self.funcs.len() as u32;
        let func = TypeFunc {
            params: TypeTupleIndex::from_u32(place),
            results: TypeTupleIndex::from_u32(place + 1),
            async_,
        };
        self.entries.push_reserved(Entry {
            item: Item::Tuple(params.tuple),
            depth: params.depth,
            has_borrow: params.has_borrow,
        });
        self.entries.push_reserved(Entry {
            item: Item::Tuple(results.tuple),
            depth: results.depth,
            has_borrow: results.has_borrow,
        });
        self.funcs.push_reserved(func);
        Ok(TypeFuncIndex::from_u32(index))
    }

    /// Adds a table of resources.
    pub(super) fn add_resource_table(
        &mut self,
        t: TypeResourceTable,
    ) -> Result<TypeResourceTableIndex, TypeError>
        ensures ok { IfOk result (λ i. AddsResource self.old t i self.new) }
        ensures err { OnErr result (self.new ≡ self.old) }
        ensures cause { IfErr result (λ e. e ≢ TypeError.OutOfMemory → resource_refusal self.old t ≡ Some e) }
    {
        if t.instance.as_u32() > MAX_INSTANCE {
            return Err(TypeError::TooManyTypes);
        }
        self.check_room(1)?;
        let number = self.resources.len() as u32;
        self.resources.push(t)?;
        Ok(TypeResourceTableIndex::from_u32(number))
    }
}

/// The largest number of an instance.
const MAX_INSTANCE: u32 = 255;
