// What a word does at its place, and the end of the text.
// The word's offset and what is kept of it go together, but word, which docs/THEOREMS.md names, takes them one by one: a struct that is
// made there only to be taken apart in each function would be no plainer.
ghost use Rattle.std.specs.Prelude.{ℕ, ◌≡◌, List, true};
ghost use Rattle.recording.specs.Words.{word_with};
ghost use Rattle.recording.specs.Reading.{is_body, expected as expected_of, skipping as skipping_of, is_skipped, read_definition, read_width};
ghost use Rattle.recording.specs.Reading.{read_code, read_name, is_scalar, read_change, read_vector_code, vector_signal, starts_time, is_later};
ghost use Rattle.recording.specs.Reading.{open_stamp, read_time, is_dump, read_body, read_block, read_word, finish as finish_of};
ghost use Rattle.recording.specs.Declarations.{signal_of};
ghost use Rattle.vcd_words.specs.Partial.{Keeps, text_of, bit_value};

use crate::{Keyword, Misreading, Partial, declarations, marks, readers, scanning, stamps};
use recording::{Place, Read, Reader, Signal, Value};

// ---- definitions

// Only this keyword may stand here; then the next place.
fn expected(k: Keyword, next: Place, r: Reader, at: u64, p: Partial) -> Reader
    ensures { (w : List ℕ) → Keeps p w → result ≡ expected_of (text_of k) next r (word_with at w) }
{
    if marks::says(p, k) {
        readers::at(r, next)
    } else {
        readers::misread(r, Misreading::NotGrammar, at)
    }
}

fn skipping(next: Place, r: Reader, p: Partial) -> Reader
    ensures { (at : ℕ) (w : List ℕ) → Keeps p w → result ≡ skipping_of next r (word_with at w) }
{
    if marks::says(p, Keyword::End) {
        readers::at(r, next)
    } else {
        r
    }
}

fn is_skipped(p: Partial) -> bool
    ensures { (w : List ℕ) → Keeps p w → result ≡ is_skipped w }
{
    marks::says(p, Keyword::Date)
        || marks::says(p, Keyword::Version)
        || marks::says(p, Keyword::Comment)
        || marks::says(p, Keyword::Timescale)
        || marks::says(p, Keyword::Scope)
        || marks::says(p, Keyword::Upscope)
}

#[tactic(auto, unfolding(recording::specs::Reading::read_definition))]
fn definition(r: Reader, at: u64, p: Partial) -> Reader
    ensures { (w : List ℕ) → Keeps p w → result ≡ read_definition r (word_with at w) }
{
    if is_skipped(p) {
        readers::at(r, Place::SkipDefinition)
    } else if marks::says(p, Keyword::Var) {
        readers::at(r, Place::Wire)
    } else if !marks::says(p, Keyword::EndDefinitions) {
        readers::misread(r, Misreading::NotGrammar, at)
    } else if declarations::all_declared(r) {
        readers::at(r, Place::DefinitionsEnd)
    } else {
        readers::misread(r, Misreading::BadVariable, at)
    }
}

#[tactic(auto, unfolding(recording::specs::Reading::read_width))]
fn width(r: Reader, at: u64, p: Partial) -> Reader
    ensures { (w : List ℕ) → Keeps p w → result ≡ read_width r (word_with at w) }
{
    match marks::width(p) {
        Some(width) => readers::at(readers::with_width(r, width), Place::Code),
        None => readers::misread(r, Misreading::NotGrammar, at),
    }
}

#[tactic(auto, using(crate::proofs::Telling::ends_word, crate::proofs::Codes::code_zero, crate::proofs::Codes::code_some), unfolding(recording::specs::Reading::read_code, recording::specs::Values::code_of))]
fn code(r: Reader, at: u64, p: Partial) -> Reader
    ensures { (w : List ℕ) → Keeps p w → result ≡ read_code r (word_with at w) }
{
    match marks::code_of(p.length, p.low) {
        0 => readers::misread(r, Misreading::NotGrammar, at),
        code => readers::at(readers::with_code(r, code), Place::Name),
    }
}

#[tactic(auto, unfolding(recording::specs::Reading::read_name))]
fn name(r: Reader, at: u64, p: Partial) -> Reader
    ensures { (w : List ℕ) → Keeps p w → result ≡ read_name (signal_of w) r (word_with at w) }
{
    match declarations::named(p) {
        Some(s) if declarations::declares(r, s) => {
            readers::at(readers::declaring(r, s), Place::VarEnd)
        }
        _ => readers::misread(r, Misreading::BadVariable, at),
    }
}

// ---- changes

// The value of one bit.
#[tactic(auto, unfolding(recording::specs::Values::value_of))]
pub fn bit_value(b: u8) -> Value
    ensures { result ≡ bit_value b }
{
    match b {
        b'0' => readers::value_with(true, 0),
        b'1' => readers::value_with(true, 1),
        _ => readers::value_with(false, 0),
    }
}

fn is_scalar(r: Reader, p: Partial) -> bool
    ensures { (w : List ℕ) → Keeps p w → result ≡ is_scalar r w }
{
    let code = marks::code_of(p.length.saturating_sub(1), p.low);
    scanning::is_bit(p.first) && declarations::has_code(r.variables.stb, code)
}

#[tactic(auto, unfolding(recording::specs::Reading::read_change))]
fn change(next: Place, code_next: Place, r: Reader, at: u64, p: Partial) -> Reader
    ensures { (w : List ℕ) → Keeps p w → result ≡ read_change next code_next r (word_with at w) }
{
    if let Some(vector) = marks::vector(p) {
        readers::at(readers::with_vector(r, vector), code_next)
    } else if is_scalar(r, p) {
        let level = bit_value(p.first);
        readers::at(readers::with_value(r, Signal::Stb, level), next)
    } else {
        readers::misread(r, Misreading::NotGrammar, at)
    }
}

#[tactic(auto, unfolding(recording::specs::Reading::read_vector_code))]
fn vector_code(next: Place, r: Reader, at: u64, p: Partial) -> Reader
    ensures { (w : List ℕ) → Keeps p w → result ≡ read_vector_code next (vector_signal r w) r (word_with at w) }
{
    let given = r.pending.vector;
    match declarations::coded(r, marks::code_of(p.length, p.low)) {
        Some(s) if given.length <= readers::variable(r.variables, s).width => {
            readers::at(readers::with_value(r, s, given.value), next)
        }
        _ => readers::misread(r, Misreading::NotGrammar, at),
    }
}

// ---- times

pub fn is_later(r: Reader, t: u64) -> bool
    ensures { result ≡ is_later r t }
{
    !r.stamp.opened || r.stamp.time < t
}

#[tactic(auto, unfolding(recording::specs::Reading::open_stamp))]
fn open_stamp(r: Reader, at: u64, p: Partial) -> Reader
    ensures { (w : List ℕ) → Keeps p w → starts_time w ≡ true → result ≡ open_stamp r (word_with at w) }
{
    match marks::time(p) {
        None => readers::misread(r, Misreading::NotGrammar, at),
        Some(time) if is_later(r, time) => readers::with_time(r, time),
        Some(_) => readers::misread(r, Misreading::NotRising, at),
    }
}

#[tactic(auto, unfolding(recording::specs::Reading::read_time, recording::specs::Reading::and_then))]
fn time(r: Reader, at: u64, p: Partial) -> Read
    ensures { (w : List ℕ) → Keeps p w → starts_time w ≡ true → result ≡ read_time r (word_with at w) }
{
    let ended = stamps::end_open_stamp(r, at);
    if ended.reader.fault.number != 0 {
        return ended;
    }
    readers::read_with(open_stamp(ended.reader, at, p), ended.strobe)
}

// ---- one word

fn is_dump(p: Partial) -> bool
    ensures { (w : List ℕ) → Keeps p w → result ≡ is_dump w }
{
    marks::says(p, Keyword::DumpVars)
        || marks::says(p, Keyword::DumpAll)
        || marks::says(p, Keyword::DumpOn)
        || marks::says(p, Keyword::DumpOff)
}

#[tactic(auto, unfolding(recording::specs::Reading::read_body))]
fn body(r: Reader, at: u64, p: Partial) -> Read
    ensures { (w : List ℕ) → Keeps p w → result ≡ read_body r (word_with at w) }
{
    if marks::starts_time(p) {
        time(r, at, p)
    } else if marks::says(p, Keyword::Comment) {
        readers::only(readers::at(r, Place::SkipBody))
    } else if is_dump(p) {
        readers::only(readers::at(r, Place::Block))
    } else {
        readers::only(change(Place::Body, Place::BodyCode, r, at, p))
    }
}

#[tactic(auto, unfolding(recording::specs::Reading::read_block))]
fn block(r: Reader, at: u64, p: Partial) -> Reader
    ensures { (w : List ℕ) → Keeps p w → result ≡ read_block r (word_with at w) }
{
    if marks::says(p, Keyword::End) {
        readers::at(r, Place::Body)
    } else {
        change(Place::Block, Place::BlockCode, r, at, p)
    }
}

// What a word does: it depends on what is kept of the word, and on nothing else of it.
#[tactic(auto, unfolding(recording::specs::Reading::read_word, recording::specs::Reading::read_at))]
pub fn word(r: Reader, at: u64, p: Partial) -> Read
    ensures { (w : List ℕ) → Keeps p w → result ≡ read_word r (word_with at w) }
{
    if r.fault.number != 0 {
        return readers::only(r);
    }
    match r.place {
        Place::Definition => readers::only(definition(r, at, p)),
        Place::SkipDefinition => readers::only(skipping(Place::Definition, r, p)),
        Place::Wire => readers::only(expected(Keyword::Wire, Place::Width, r, at, p)),
        Place::Width => readers::only(width(r, at, p)),
        Place::Code => readers::only(code(r, at, p)),
        Place::Name => readers::only(name(r, at, p)),
        Place::VarEnd => readers::only(expected(Keyword::End, Place::Definition, r, at, p)),
        Place::DefinitionsEnd => readers::only(expected(Keyword::End, Place::Body, r, at, p)),
        Place::Body => body(r, at, p),
        Place::SkipBody => readers::only(skipping(Place::Body, r, p)),
        Place::BodyCode => readers::only(vector_code(Place::Body, r, at, p)),
        Place::Block => readers::only(block(r, at, p)),
        Place::BlockCode => readers::only(vector_code(Place::Block, r, at, p)),
    }
}

// ---- the end of the text

pub fn is_body(place: Place) -> bool
    ensures { result ≡ is_body place }
{
    matches!(place, Place::Body)
}

// The end of a text of this length.
#[tactic(auto, unfolding(recording::specs::Reading::finish, recording::specs::Reading::and_then))]
pub fn finish(r: Reader, length: u64) -> Read
    ensures { result ≡ finish_of length r }
{
    if r.fault.number != 0 {
        return readers::only(r);
    }
    let ended = stamps::end_open_stamp(r, length);
    let next = ended.reader;
    if next.fault.number != 0 || is_body(next.place) {
        return ended;
    }
    readers::read_with(
        readers::misread(next, Misreading::NotGrammar, length),
        ended.strobe,
    )
}
