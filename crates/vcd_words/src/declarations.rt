// The five variables: whether a declaration is right, and which variable a name or a code means.
ghost use Rattle.std.specs.Prelude.{ℕ, ◌≡◌, List, not, ◌&&◌, ◌||◌, ltb, eqb};
ghost use Rattle.recording.specs.Words.{all, any};
ghost use Rattle.recording.specs.Values.{code_of};
ghost use Rattle.recording.specs.Records.{variable as variable_in};
ghost use Rattle.recording.specs.Declarations.{signals, signal_of, narrow, width_in, declared, all_declared, declares as declares_well};
ghost use Rattle.recording.specs.Reading.{vector_signal};
ghost use Rattle.vcd_words.specs.Partial.{Keeps};

use crate::{Keyword, Partial, marks, readers};
use recording::{Reader, Signal, Variable};

fn is_declared(v: Variable) -> bool
    ensures { result ≡ ltb 0 v.code }
{
    v.code != 0
}

pub fn all_declared(r: Reader) -> bool
    ensures { result ≡ all_declared r }
{
    let vs = r.variables;
    is_declared(vs.stb)
        && is_declared(vs.cmd)
        && is_declared(vs.core)
        && is_declared(vs.arg)
        && is_declared(vs.prio)
}

fn width_of(s: Signal) -> u8
    ensures { result ≡ width_in narrow s }
{
    match s {
        Signal::Stb => 1,
        Signal::Cmd => 3,
        Signal::Core => 5,
        Signal::Arg => 8,
        Signal::Prio => 9,
    }
}

// Not declared, or of its width.
fn fits(v: Variable, s: Signal) -> bool
    ensures { result ≡ (not (ltb 0 v.code) || eqb v.width (width_in narrow s)) }
{
    !is_declared(v) || v.width == width_of(s)
}

fn all_fit(r: Reader) -> bool
    ensures { result ≡ all (λ s. not (declared r s) || eqb (variable_in r s).width (width_in narrow s)) signals }
{
    let vs = r.variables;
    fits(vs.stb, Signal::Stb)
        && fits(vs.cmd, Signal::Cmd)
        && fits(vs.core, Signal::Core)
        && fits(vs.arg, Signal::Arg)
        && fits(vs.prio, Signal::Prio)
}

fn is_used(r: Reader, code: u32) -> bool
    ensures { result ≡ any (λ s. eqb (variable_in r s).code code) signals }
{
    let vs = r.variables;
    vs.stb.code == code
        || vs.cmd.code == code
        || vs.core.code == code
        || vs.arg.code == code
        || vs.prio.code == code
}

#[tactic(auto, unfolding(recording::specs::Declarations::declares))]
pub fn declares(r: Reader, s: Signal) -> bool
    ensures { result ≡ declares_well r s }
{
    !is_declared(readers::variable(r.variables, s))
        && r.pending.width == width_of(s)
        && all_fit(r)
        && !is_used(r, r.pending.code)
}

// The variable of a name.
pub fn named(p: Partial) -> Option<Signal>
    ensures { (w : List ℕ) → Keeps p w → result ≡ signal_of w }
{
    if marks::says(p, Keyword::Stb) {
        Some(Signal::Stb)
    } else if marks::says(p, Keyword::Cmd) {
        Some(Signal::Cmd)
    } else if marks::says(p, Keyword::Core) {
        Some(Signal::Core)
    } else if marks::says(p, Keyword::Arg) {
        Some(Signal::Arg)
    } else if marks::says(p, Keyword::Prio) {
        Some(Signal::Prio)
    } else {
        None
    }
}

// Declared with this code.
pub fn has_code(v: Variable, code: u32) -> bool
    ensures { result ≡ (ltb 0 v.code && eqb v.code code) }
{
    is_declared(v) && v.code == code
}

// The variable of a vector's code.
pub fn coded(r: Reader, code: u32) -> Option<Signal>
    ensures { (w : List ℕ) → code ≡ code_of w → result ≡ vector_signal r w }
{
    let vs = r.variables;
    if has_code(vs.cmd, code) {
        Some(Signal::Cmd)
    } else if has_code(vs.core, code) {
        Some(Signal::Core)
    } else if has_code(vs.arg, code) {
        Some(Signal::Arg)
    } else if has_code(vs.prio, code) {
        Some(Signal::Prio)
    } else {
        None
    }
}
