//! The script that a JSON value stands for: a guest with functions, and what is done with it. It is an object of these
//! members, each of which may be missing.
//!
//! | Member | Form | Default |
//! |---|---|---|
//! | `memory` | the bytes of memory, at most 67,108,864 | 65536 |
//! | `heap` | where the allocator begins, at most `memory` | 1024 |
//! | `fuel` | what each lifting may cost, any `u64` | 1000000 |
//! | `handles` | how many handles may live at once, at most 1,000,000 | 1000000 |
//! | `turns` | how many asks of imports a call may have served, at most 1,000,000 | 100 |
//! | `encoding` | `"utf8"`, `"utf16"` or `"compact"` | `"utf8"` |
//! | `resources` | resources | `[]` |
//! | `types` | entries | `[]` |
//! | `funcs` | functions | `[]` |
//! | `imports` | imports | `[]` |
//! | `items` | items | `[]` |
//!
//! - A reference is the name of a scalar (`bool`, `s8` .. `u64`, `f32`, `f64`, `char`), `string`, or the number of an entry;
//!   in an entry, of one before it.
//! - An entry is `{"list": reference}`, `{"map": [key, value]}`, `{"record": [[name, reference], ..]}`, `{"tuple":
//!   [reference, ..]}`, `{"variant": [case, ..]}`, `{"enum": [name, ..]}`, `{"option": reference}`, `{"result": [ok,
//!   error]}`, `{"flags": [name, ..]}`, `{"fixed": [reference, length]}`, `{"own": resource}` or `{"borrow": resource}`, with the
//!   number of an entry of `resources`. A case is `[name]` or `[name, reference]`; each of `ok` and `error` is a reference or `null`.
//! - A resource is `{"kind": "dynamic", "id": number}`, one of the host's that the number gives, or `{"kind": "guest", "id": number}`, one
//!   of the guest's, which may have `here` (whether the guest's instance defines it, true where it is missing) and `dtor` (the core
//!   function that destroys it, or `null`).
//! - A function is `{"params": [reference, ..], "results": [reference, ..]}`, and may have `async` and `post`, which are
//!   false where they are missing. `post` says that it has a post-return function.
//! - An import, for which the guest asks by its number, is `{"params": [reference, ..], "results": [reference, ..], "answers":
//!   [answer, ..]}`, a function of the host that gives these answers in order and then refuses; or `{"builtin": "new", "resource":
//!   resource}`, or so with `"rep"` or `"drop"`, with the number of an entry of `resources`: a call on the handles of that resource
//!   type. An answer is an array of as many values as there are results, in which no resource stands, or `"refuse"`.
//! - An item is a call, typed or not, a new resource or a drop.
//! - A call is `{"call": number, "params": [value, ..], "guest": [action, ..]}`, and may have `slots` (how many results
//!   there is room for, at most 1,000; where it is missing, the number of the function's results), `reallocs` (how
//!   `realloc` is answered, call by call: a number below 2^32, `"trap"`, or `null` for the allocator's answer) and
//!   `post_trap` (whether the post-return function traps).
//! - A call that has the member `typed` too, a number from 1 to 4, passes and returns Rust values, and has no `slots`. Its `params` are
//!   exactly: for 1 a `u32`; for 2 a `string`; for 3 a `list` of `u32`; for 4 a `list` of `tuple`s, each of a `string` and a `u64`, and
//!   then an `option` of a `bool`.
//! - A new resource is `{"new": resource, "rep": representation}`, of an entry of `resources` that is dynamic, and may have `borrow`
//!   (whether it is a borrow and no own handle). A drop is `{"drop": number}`, of a resource by its number in the list of all that were
//!   made and answered so far, and may have `dtor_trap` (whether the destructor traps).
//! - An action is `{"write": [address, hex]}`, `{"grow": bytes}`, `{"return": [word, ..]}`, `{"ask": import, "words":
//!   [word, ..]}` or `{"trap": true}`. Addresses, bytes and words are any `u64`.
//! - A value is an object of one member, which names its kind: `{"u8": 7}`, `{"f32": bits}`, `{"char": "a"}`,
//!   `{"string": "text"}`, `{"list": [value, ..]}`, `{"map": [[key, value], ..]}`, `{"record": [[name, value], ..]}`,
//!   `{"tuple": [value, ..]}`, `{"variant": [name]}` or `{"variant": [name, value]}`, `{"enum": name}`, `{"option": null}`
//!   or `{"option": value}`, `{"result": ["ok"]}` or `{"result": ["ok", value]}` and so with `"err"`, `{"flags": [name,
//!   ..]}`, `{"fixed": [value, ..]}`, `{"resource": number}`, a resource by its number in that list. It needn't be of the type
//!   of its parameter or result.
//!
//! Memory with all that the actions add is at most 67,108,864 bytes, and twice that, times the number of calls and `ask`
//! actions, at most 1,073,741,824. Numbers are those that `serde_json` reads as a `u64`, or as an `i64` where they may be
//! negative.
#![tactic(auto)]

mod actions;
mod fields;
mod imports;
mod items;
mod kinds;
mod limits;
mod reading;
mod script;
mod typed_params;
mod types;
mod values;

pub use actions::actions_of_json;
pub use canon_literals::{are_known, copies_of, resources_in, with_resources};
pub use reading::script_of_json;
pub use script::{CallItem, DropItem, Item, NewItem, Script, TypedItem, TypedParams};
pub use typed_params::typed_form;
pub use values::value_of_json;
