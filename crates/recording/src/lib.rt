// What a reader of a recording holds between two words, by value. What each word does to it is said in specs/.
// Document 01, "The bus monitor's text": Value Change Dump text (IEEE 1364), cut down.
// All numbers and flags: nothing of the text is kept but the number that a code spells, a width, and a vector's value.
#![tactic(auto)]

// What may stand next.
#[derive(Clone, Copy)]
pub enum Place {
    // among the definitions: a declaration, something to skip, or their end
    Definition,
    // inside something to skip, up to its $end
    SkipDefinition,
    // $var was read; then its width, code, name and $end
    Wire,
    Width,
    Code,
    Name,
    VarEnd,
    // $enddefinitions was read
    DefinitionsEnd,
    // after the definitions: a time, a change, a comment or a block
    Body,
    SkipBody,
    // a vector was read, and its code is due
    BodyCode,
    // inside $dumpvars, $dumpall, $dumpon or $dumpoff
    Block,
    BlockCode,
}

// The five variables of a recording.
#[derive(Clone, Copy)]
pub enum Signal {
    Stb,
    Cmd,
    Core,
    Arg,
    Prio,
}

// What a variable holds: a number, or not known, by an x or z; then the number is 0. A flag and not an Option, since what is carried
// between chunks has both, and `value_from` reads any number beside either flag.
#[derive(Clone, Copy)]
pub struct Value {
    pub known: bool,
    pub number: u16,
}

// A declared variable. Its code as the number that its one to four bytes spell; 0: not declared, as it is carried (`variable_bytes`).
#[derive(Clone, Copy)]
pub struct Variable {
    pub code: u32,
    pub width: u8,
    pub value: Value,
}

#[derive(Clone, Copy)]
pub struct Variables {
    pub stb: Variable,
    pub cmd: Variable,
    pub core: Variable,
    pub arg: Variable,
    pub prio: Variable,
}

// A vector whose code is due: how many bits it gives, held at 255, and their value, its number held at 65,535.
#[derive(Clone, Copy)]
pub struct Vector {
    pub length: u8,
    pub value: Value,
}

// What is read of a declaration or of a change under way: the width, held at 255, the code, and the vector.
#[derive(Clone, Copy)]
pub struct Pending {
    pub width: u8,
    pub code: u32,
    pub vector: Vector,
}

// Whether a stamp is open, its time, and whether stb was 1 at the end of the stamp before. The flag stands beside the time, since
// `stamp_from` reads any time beside either flag.
#[derive(Clone, Copy)]
pub struct Stamp {
    pub opened: bool,
    pub time: u64,
    pub up: bool,
}

// The number and the offset of the first fault; number 0: none so far. A number and not an Option of an enum, since `fault_from` reads
// any number, and hosts are told it (`Report`).
#[derive(Clone, Copy)]
pub struct Fault {
    pub number: u8,
    pub offset: u64,
}

// All that a reader holds. taken counts the commands.
#[derive(Clone, Copy)]
pub struct Reader {
    pub place: Place,
    pub pending: Pending,
    pub variables: Variables,
    pub stamp: Stamp,
    pub taken: u16,
    pub fault: Fault,
}

// The command that is taken where a stamp ends, as three numbers: its own, 0 to 7; the id or the core; and the priority, 0 where it
// has none.
#[derive(Clone, Copy)]
pub struct Strobe {
    pub number: u16,
    pub target: u16,
    pub level: u16,
}

// What a word does: the reader after it, and the command taken at it, if there is one.
#[derive(Clone, Copy)]
pub struct Read {
    pub reader: Reader,
    pub strobe: Option<Strobe>,
}

// What a call for hosts answers, as C's record: the number of the first fault, or 2 or 255, 0 for none; how many commands it wrote or
// answered; the offset of the fault, and without one the text's length.
#[repr(C)]
#[derive(Clone, Copy)]
pub struct Report {
    pub number: u8,
    pub count: u16,
    pub offset: u64,
}
