//! The builder of a table of types.

ghost use Rattle.std.specs.Prelude.{◌≡◌, ◌≢◌, Err, IfErr, IfOk, Ok, OnErr, Some, if◌then◌else◌, length, nat_lt};
ghost use Rattle.canon_types.specs.Keeps.{cases_type, fields_type, names_of};
ghost use Rattle.canon_types.specs.Refusal.{Adds, AddsFunc, AddsResource, empty_type_table, func_refusal, refusal, resource_refusal};
ghost use Rattle.canon_types.specs.Table.{EnumType, FixedListType, FlagsType, ListType, MapType, OptionType, ResultType, TupleType};

use super::ComponentTypes;
use crate::{
    InterfaceType, RecordField, TypeError, TypeFuncIndex, TypeResourceTable, TypeResourceTableIndex,
};
use std::alloc::Global;
use std::marker::Model;

/// Adds types to a table. Contracts see the table so far. A call that refuses leaves it as it was, and answers the first
/// `TypeError` that applies.
#[derive(Drop)]
pub struct TypeBuilder {
    types: ComponentTypes,
}

impl Model for TypeBuilder {
    ghost use Rattle.canon_types.specs.Table.{TypeTable};

    ghost Value = { TypeTable };

    ghost view = { λ b. b.types };
}

impl TypeBuilder {
    /// A table with no types.
    pub fn new(alloc: Global) -> Self
        ensures { result ≡ empty_type_table }
    {
        TypeBuilder {
            types: ComponentTypes::new(alloc),
        }
    }

    /// The table.
    pub fn finish(self) -> ComponentTypes
        ensures { result ≡ self }
    {
        self.types
    }

    /// A list of any length.
    pub fn add_list(&mut self, element: InterfaceType) -> Result<InterfaceType, TypeError>
        ensures ok { IfOk result (λ t. Adds self.old (ListType element) t self.new) }
        ensures err { OnErr result (self.new ≡ self.old) }
        ensures cause { IfErr result (λ e. e ≢ TypeError.OutOfMemory → refusal self.old (ListType element) ≡ Some e) }
    {
        self.types.add_list(element)
    }

    /// A map, which lies in memory as a list of pairs.
    pub fn add_map(
        &mut self,
        key: InterfaceType,
        value: InterfaceType,
    ) -> Result<InterfaceType, TypeError>
        ensures ok { IfOk result (λ t. Adds self.old (MapType key value) t self.new) }
        ensures err { OnErr result (self.new ≡ self.old) }
        ensures cause { IfErr result (λ e. e ≢ TypeError.OutOfMemory → refusal self.old (MapType key value) ≡ Some e) }
    {
        self.types.add_map(key, value)
    }

    /// A record of 1 to 1,048,576 fields.
    pub fn add_record(&mut self, fields: Vec<RecordField>) -> Result<InterfaceType, TypeError>
        ensures ok { IfOk result (λ t. Adds self.old (fields_type fields.items) t self.new) }
        ensures err { OnErr result (self.new ≡ self.old) }
        ensures cause { IfErr result (λ e. e ≢ TypeError.OutOfMemory → refusal self.old (fields_type fields.items) ≡ Some e) }
    {
        self.types.add_record(fields)
    }

    /// A tuple of one member or more.
    pub fn add_tuple(&mut self, types: Vec<InterfaceType>) -> Result<InterfaceType, TypeError>
        ensures ok { IfOk result (λ t. Adds self.old (TupleType types.items) t self.new) }
        ensures err { OnErr result (self.new ≡ self.old) }
        ensures cause { IfErr result (λ e. e ≢ TypeError.OutOfMemory → refusal self.old (TupleType types.items) ≡ Some e) }
    {
        self.types.add_tuple(types)
    }

    /// A variant of 1 to 1,048,576 cases.
    pub fn add_variant(
        &mut self,
        cases: Vec<(String, Option<InterfaceType>)>,
    ) -> Result<InterfaceType, TypeError>
        ensures ok { IfOk result (λ t. Adds self.old (cases_type cases.items) t self.new) }
        ensures err { OnErr result (self.new ≡ self.old) }
        ensures cause { IfErr result (λ e. e ≢ TypeError.OutOfMemory → refusal self.old (cases_type cases.items) ≡ Some e) }
    {
        self.types.add_variant(cases)
    }

    /// An enum of 1 to 1,048,576 names.
    pub fn add_enum(&mut self, names: Vec<String>) -> Result<InterfaceType, TypeError>
        ensures ok { IfOk result (λ t. Adds self.old (EnumType (names_of names.items)) t self.new) }
        ensures err { OnErr result (self.new ≡ self.old) }
        ensures cause { IfErr result (λ e. e ≢ TypeError.OutOfMemory → refusal self.old (EnumType (names_of names.items)) ≡ Some e) }
    {
        self.types.add_enum(names)
    }

    /// An option.
    pub fn add_option(&mut self, some: InterfaceType) -> Result<InterfaceType, TypeError>
        ensures ok { IfOk result (λ t. Adds self.old (OptionType some) t self.new) }
        ensures err { OnErr result (self.new ≡ self.old) }
        ensures cause { IfErr result (λ e. e ≢ TypeError.OutOfMemory → refusal self.old (OptionType some) ≡ Some e) }
    {
        self.types.add_option(some)
    }

    /// A result.
    pub fn add_result(
        &mut self,
        ok: Option<InterfaceType>,
        err: Option<InterfaceType>,
    ) -> Result<InterfaceType, TypeError>
        ensures ok { IfOk result (λ t. Adds self.old (ResultType ok err) t self.new) }
        ensures err { OnErr result (self.new ≡ self.old) }
        ensures cause { IfErr result (λ e. e ≢ TypeError.OutOfMemory → refusal self.old (ResultType ok err) ≡ Some e) }
    {
        self.types.add_result(ok, err)
    }

    /// Flags of 1 to 8,160 names.
    pub fn add_flags(&mut self, names: Vec<String>) -> Result<InterfaceType, TypeError>
        ensures ok { IfOk result (λ t. Adds self.old (FlagsType (names_of names.items)) t self.new) }
        ensures err { OnErr result (self.new ≡ self.old) }
        ensures cause { IfErr result (λ e. e ≢ TypeError.OutOfMemory → refusal self.old (FlagsType (names_of names.items)) ≡ Some e) }
    {
        self.types.add_flags(names)
    }

    /// A list of `size` elements.
    pub fn add_fixed_length_list(
        &mut self,
        element: InterfaceType,
        size: u32,
    ) -> Result<InterfaceType, TypeError>
        ensures ok { IfOk result (λ t. Adds self.old (FixedListType element size) t self.new) }
        ensures err { OnErr result (self.new ≡ self.old) }
        ensures cause { IfErr result (λ e. e ≢ TypeError.OutOfMemory → refusal self.old (FixedListType element size) ≡ Some e) }
    {
        self.types.add_fixed_length_list(element, size)
    }

    /// An owned handle of a resource table. It is no entry of the table, so a full table takes it.
    pub fn add_own(&mut self, t: TypeResourceTableIndex) -> Result<InterfaceType, TypeError>
        ensures answer { result ≡ (if nat_lt t (length self.old.resources) then Ok (InterfaceType.Own t) else Err TypeError.UnknownIndex) }
        ensures same { self.new ≡ self.old }
    {
        if self.types.has_resource(t) {
            Ok(InterfaceType::Own(t))
        } else {
            Err(TypeError::UnknownIndex)
        }
    }

    /// A borrowed handle of a resource table. It is no entry of the table, so a full table takes it.
    pub fn add_borrow(&mut self, t: TypeResourceTableIndex) -> Result<InterfaceType, TypeError>
        ensures answer { result ≡ (if nat_lt t (length self.old.resources) then Ok (InterfaceType.Borrow t) else Err TypeError.UnknownIndex) }
        ensures same { self.new ≡ self.old }
    {
        if self.types.has_resource(t) {
            Ok(InterfaceType::Borrow(t))
        } else {
            Err(TypeError::UnknownIndex)
        }
    }

    /// A table of an instance's handles of one resource. The instance's number is at most 255.
    pub fn add_resource_table(
        &mut self,
        t: TypeResourceTable,
    ) -> Result<TypeResourceTableIndex, TypeError>
        ensures ok { IfOk result (λ i. AddsResource self.old t i self.new) }
        ensures err { OnErr result (self.new ≡ self.old) }
        ensures cause { IfErr result (λ e. e ≢ TypeError.OutOfMemory → resource_refusal self.old t ≡ Some e) }
    {
        self.types.add_resource_table(t)
    }

    /// A function type, which is three entries of the table: two tuples and the function. Its lists may be empty.
    pub fn add_func(
        &mut self,
        params: Vec<InterfaceType>,
        results: Vec<InterfaceType>,
        async_: bool,
    ) -> Result<TypeFuncIndex, TypeError>
        ensures ok { IfOk result (λ i. AddsFunc self.old params.items results.items async_ i self.new) }
        ensures err { OnErr result (self.new ≡ self.old) }
        ensures cause { IfErr result (λ e. e ≢ TypeError.OutOfMemory → func_refusal self.old params.items results.items ≡ Some e) }
    {
        self.types.add_func(params, results, async_)
    }
}
