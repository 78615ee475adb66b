//! What guests try, and how the run ends, in one table. docs/HOSTILE.md says where the rest of what guests may try is shown.

/// What is tried, and how the run ends.
pub(crate) struct Row {
    pub(crate) tried: &'static str,
    /// the words of a command line, with blanks between them
    pub(crate) words: &'static str,
    /// standard input
    pub(crate) input: &'static str,
    pub(crate) status: u8,
    /// what is printed
    pub(crate) text: &'static str,
}

/// The block of a list's first text is ordered where the list's own is. The list's two pairs take 16 bytes from 1024 on.
pub(crate) const OVER_THE_LIST: Row = Row {
    tried: "a text is ordered over the list",
    words: "run",
    input: r#"{"types": [{"list": "string"}], "funcs": [{"params": [0], "results": []}],
        "items": [{"call": 0, "params": [{"list": [{"string": "a"}, {"string": ""}]}], "guest": [{"return": []}], "reallocs": [null, 1024]}]}"#,
    status: 0,
    text: "call 0\nrealloc 0 0 4 16 = 1024\nrealloc 0 0 1 1 = 1024\nrealloc 0 0 1 0 = 1040\nstart 0 1024 2\n\
     block 1024 00040000010000001004000000000000\nblock 1024 00\nreturn\nok\nlive 0\n",
};

pub(crate) const ROWS: [Row; 13] = [
    Row {
        tried: "a guest that does what it should",
        words: "run",
        input: r#"{"funcs": [{"params": ["u32", "s8"], "results": ["bool"]}],
            "items": [{"call": 0, "params": [{"u32": 7}, {"s8": -1}], "guest": [{"return": [2]}]}]}"#,
        status: 0,
        text: "call 0\nstart 0 7 4294967295\nreturn 2\nok true\nlive 0\n",
    },
    OVER_THE_LIST,
    Row {
        tried: "an empty list at the end of memory",
        words: "run",
        input: r#"{"types": [{"list": "u8"}], "funcs": [{"params": [], "results": [0]}],
            "items": [{"call": 0, "params": [], "guest": [{"write": [2048, "0000010000000000"]}, {"return": [2048]}]}]}"#,
        status: 0,
        text: "call 0\nstart 0\nreturn 2048\nok []\nlive 0\n",
    },
    Row {
        tried: "an empty list a byte past the end of memory",
        words: "run",
        input: r#"{"types": [{"list": "u8"}], "funcs": [{"params": [], "results": [0]}],
            "items": [{"call": 0, "params": [], "guest": [{"write": [2048, "0100010000000000"]}, {"return": [2048]}]}]}"#,
        status: 0,
        text: "call 0\nstart 0\nreturn 2048\nerror PointerOutOfBounds @2048\nlive 0\n",
    },
    Row {
        tried: "an empty list that isn't aligned",
        words: "run",
        input: r#"{"types": [{"list": "u32"}], "funcs": [{"params": [], "results": [0]}],
            "items": [{"call": 0, "params": [], "guest": [{"write": [2048, "feff000000000000"]}, {"return": [2048]}]}]}"#,
        status: 0,
        text: "call 0\nstart 0\nreturn 2048\nerror PointerMisaligned @2048\nlive 0\n",
    },
    Row {
        tried: "a list of 4,294,967,295 items of eight bytes",
        words: "run",
        input: r#"{"types": [{"list": "u64"}], "funcs": [{"params": [], "results": [0]}],
            "items": [{"call": 0, "params": [], "guest": [{"write": [2048, "00000000ffffffff"]}, {"return": [2048]}]}]}"#,
        status: 0,
        text: "call 0\nstart 0\nreturn 2048\nerror PointerOutOfBounds @2048\nlive 0\n",
    },
    Row {
        tried: "four lists in one place, each charged",
        words: "run",
        input: r#"{"fuel": 1024127, "types": [{"list": "u8"}, {"list": 0}], "funcs": [{"params": [], "results": [1]}],
            "items": [{"call": 0, "params": [], "guest": [{"write": [2048, "0010000004000000"]},
            {"write": [4096, "00000000401f000000000000401f000000000000401f000000000000401f0000"]}, {"return": [2048]}]}]}"#,
        status: 0,
        text: "call 0\nstart 0\nreturn 2048\nerror HostcallFuelExhausted\nlive 0\n",
    },
    Row {
        tried: "one resource for two owns",
        words: "run",
        input: r#"{"resources": [{"kind": "dynamic", "id": 1}], "types": [{"own": 0}], "funcs": [{"params": [0, 0], "results": []}],
            "items": [{"new": 0, "rep": 7}, {"call": 0, "params": [{"resource": 0}, {"resource": 0}], "guest": [{"return": []}]}]}"#,
        status: 0,
        text: "new\nok #0\nlive 1\ncall 0\nerror UnknownHandle 1\nlive 1\n",
    },
    Row {
        tried: "a place for the results of an import past the end of memory",
        words: "run",
        input: r#"{"imports": [{"params": [], "results": ["u32", "u32"], "answers": [[{"u32": 1}, {"u32": 2}]]}],
            "funcs": [{"params": [], "results": []}],
            "items": [{"call": 0, "params": [], "guest": [{"ask": 0, "words": [65536]}, {"return": []}]}]}"#,
        status: 0,
        text: "call 0\nstart 0\nask 0 65536\nerror ImportFault 0 PointerOutOfBounds w0\nlive 0\n",
    },
    Row {
        tried: "a destructor that traps, and a call after it",
        words: "run",
        input: r#"{"resources": [{"kind": "guest", "id": 0, "dtor": 5}], "types": [{"own": 0}], "imports": [{"builtin": "new", "resource": 0}],
            "funcs": [{"params": [], "results": [0]}], "items": [
            {"call": 0, "params": [], "guest": [{"ask": 0, "words": [7]}, {"return": [1]}]}, {"drop": 0, "dtor_trap": true},
            {"call": 0, "params": [], "guest": [{"ask": 0, "words": [7]}, {"return": [1]}]}]}"#,
        status: 0,
        text: "call 0\nstart 0\nask 0 7\nresume 1\nreturn 1\nok #0\nlive 1\ndrop 0\ndtor 5 7\ntrap\nerror GuestTrap\nlive 0\n\
         call 0\nerror CannotEnterComponent\nlive 0\n",
    },
    Row {
        tried: "no words",
        words: "",
        input: "{}",
        status: 2,
        text: "",
    },
    Row {
        tried: "an input that breaks off",
        words: "run",
        input: "[1",
        status: 7,
        text: "",
    },
    Row {
        tried: "an array in place of a script",
        words: "run",
        input: "[]",
        status: 8,
        text: "",
    },
];
