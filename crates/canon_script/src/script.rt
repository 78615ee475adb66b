//! A script and its items, once they are read.

use canon_context::Import;
use canon_scripted::{Action, Ordered};
use canon_types::{ComponentTypes, StringEncoding};
use canon_val::Val;

/// One call of a function.
#[derive(Debug, Drop)]
pub struct CallItem {
    /// The number of the function, which is also that of its core function and, where it has one, of its post-return
    /// function.
    pub func: u32,
    /// The parameters, whether they are of their types or not. A resource among them is kept as a borrow that the host made of its
    /// number.
    pub params: Vec<Val>,
    /// What the guest does.
    pub guest: Vec<Action>,
    /// How many results there is room for.
    pub slots: u64,
    /// How the first calls of `realloc` are answered.
    pub reallocs: Vec<Ordered>,
    /// Whether the post-return function traps.
    pub post_trap: bool,
}

/// The parameters of a typed call, by its signature.
#[derive(Debug, Drop)]
pub enum TypedParams {
    /// Of a function over one `u32`.
    Number(u32),
    /// Of a function over one text.
    Text(String),
    /// Of a function over one list of `u32`.
    Numbers(Vec<u32>),
    /// Of a function over a list of pairs and an optional bool.
    Pairs(Vec<(String, u64)>, Option<bool>),
}

/// One call of a function with Rust types.
#[derive(Debug, Drop)]
pub struct TypedItem {
    /// The number of the function, as of a call.
    pub func: u32,
    /// The parameters, whether they are of the function's types or not.
    pub params: TypedParams,
    /// What the guest does.
    pub guest: Vec<Action>,
    /// How the first calls of `realloc` are answered.
    pub reallocs: Vec<Ordered>,
    /// Whether the post-return function traps.
    pub post_trap: bool,
}

/// A new resource of the host.
#[derive(Clone, Copy, Debug, PartialEq, Eq)]
pub struct NewItem {
    /// The number that gives its type.
    pub ty: u32,
    /// Its representation.
    pub rep: u32,
    /// Whether it is a borrow, and no own handle.
    pub borrow: bool,
}

/// A drop of a resource.
#[derive(Clone, Copy, Debug, PartialEq, Eq)]
pub struct DropItem {
    /// The number of the resource.
    pub resource: u32,
    /// Whether its destructor traps.
    pub dtor_trap: bool,
}

/// One item of a script.
#[derive(Debug, Drop)]
pub enum Item {
    Call(CallItem),
    Typed(TypedItem),
    New(NewItem),
    Drop(DropItem),
}

/// What a script says in numbers, and how texts are spelled: the bytes of memory at the start, where the guest's allocator begins, the
/// fuel that each lifting begins with, how many handles may live at once, and how many asks of imports a call may have served.
#[derive(Clone, Copy)]
pub(crate) struct Settings {
    pub memory: u64,
    pub heap: u64,
    pub fuel: u64,
    pub handles: u64,
    pub turns: u64,
    pub encoding: StringEncoding,
}

/// A guest with its functions, and what is done with it.
#[derive(Drop)]
pub struct Script {
    /// The bytes of memory at the start.
    pub memory: u64,
    /// Where the guest's allocator begins.
    pub heap: u64,
    /// The fuel that each lifting begins with.
    pub fuel: u64,
    /// How many handles may live at once.
    pub handles: u64,
    /// How many asks of imports a call may have served.
    pub turns: u64,
    /// How texts are spelled in memory.
    pub encoding: StringEncoding,
    /// The resources, the types, the functions and the function types of the host's functions, each in the order of the script.
    pub types: ComponentTypes,
    /// For each function whether it has a post-return function.
    pub posts: Vec<bool>,
    /// What the guest may ask for, by its number: functions of the host, all under the first options, and calls on the handles of
    /// the resource types.
    pub imports: Vec<Import>,
    /// The answers of each import, in order: the results of a function of the host, or none where it refuses.
    pub answers: Vec<Vec<Option<Vec<Val>>>>,
    /// What is done, in order.
    pub items: Vec<Item>,
}
