// Says of two hits on data bits of one block whether the check sees them, and what each of the bits adds to the check. The
// bits are the arguments; with `--t1` before them the block is a superframe of T1.
#![tactic(auto)]

mod judge;
mod share;

ghost use Rattle.std.specs.Prelude.{◌<◌, ◌≤◌};
ghost use Rattle.hits.specs.Verdict.{numbers_of};

use judge::{Form, Verdict};
use program::{Kind, Program};
use std::fmt;
use std::fmt::{Display, Formatter};
use std::rt::Env;

const HITS: Program<'static> = Program {
    name: "hits",
    kind: Kind::E1,
};

// two hits on bits of one block, so far apart, and whether the check sees them
#[derive(Clone, Copy)]
struct Hits {
    form: Form,
    a: usize,
    b: usize,
    apart: usize,
    is_seen: bool,
    ghost inside: { (a < (numbers_of form).bits) × (b < (numbers_of form).bits) },
}

// the same in words, and what each of the bits adds to the check
impl Display for Hits {
    fn fmt<W: fmt::Write>(&self, f: &mut Formatter<W>) -> fmt::Result {
        let Hits {
            form,
            a,
            b,
            apart,
            is_seen,
        } = *self;
        let order = form.order();
        if is_seen {
            writeln!(f, "seen: {apart} apart, no multiple of {order}")?;
        } else {
            let times = apart / order;
            writeln!(f, "unseen: {apart} apart, {times} times {order}")?;
        }
        let width = form.width();
        let first = form.share(a);
        let second = form.share(b);
        let both = first ^ second;
        writeln!(f, "bit {a} adds {first:0width$b} to the check")?;
        writeln!(f, "bit {b} adds {second:0width$b} to the check")?;
        writeln!(f, "together they add {both:0width$b}")
    }
}

// printed at once: each print has a buffer of its own on the stack
fn tell(rt: &impl Print, hits: Hits) {
    HITS.written(rt.print(hits));
}

fn say_outside(form: Form) {
    match form {
        Form::E1 => HITS.say("a block has bits 0 to 2047"),
        Form::T1 => HITS.say("a superframe has bits 0 to 4631"),
    }
}

fn say_no_data(form: Form, bit: usize) {
    match form {
        Form::E1 => HITS.say(format_args!(
            "bit {bit} is a check bit: it counts as 0 in its own block, hit or not; \
             a hit on it shows in the block before"
        )),
        Form::T1 => HITS.say(format_args!(
            "bit {bit} is a framing bit: it counts as 1 in its own superframe, hit or not; \
             where it carries a check, a hit on it shows in the superframe before"
        )),
    }
}

fn say_one_bit(bit: usize) {
    HITS.say(format_args!("two hits on bit {bit} leave it as it was"));
}

fn answer(rt: &impl Print, form: Form, a: usize, b: usize) {
    match form.verdict(a, b) {
        Verdict::Outside => say_outside(form),
        Verdict::NoData { bit } => say_no_data(form, bit),
        Verdict::OneBit { bit } => say_one_bit(bit),
        Verdict::Hidden { apart } => {
            let is_seen = false;
            tell(
                rt,
                Hits {
                    form,
                    a,
                    b,
                    apart,
                    is_seen,
                },
            );
        }
        Verdict::Seen { apart } => {
            let is_seen = true;
            tell(
                rt,
                Hits {
                    form,
                    a,
                    b,
                    apart,
                    is_seen,
                },
            );
        }
    }
}

// the two bits, which are the arguments from `at` on; nothing is behind them
fn bits(rt: &impl Env, at: usize) -> Option<(usize, usize)>
    requires { at ≤ 2 }
{
    if !program::is_given(rt, at + 1) || program::is_given(rt, at + 2) {
        return None;
    }
    let a = program::argument(rt, at)?;
    let b = program::argument(rt, at + 1)?;
    Some((a as usize, b as usize))
}

fn ask(rt: &(impl Env + Print), form: Form, at: usize)
    requires { at ≤ 2 }
{
    match bits(rt, at) {
        Some((a, b)) => answer(rt, form, a, b),
        None => HITS.say(
            "name two bits of a block, as decimal numbers: hits A B, or hits --t1 A B",
        ),
    }
}

fn main(rt: HostRuntime) {
    let is_t1 = program::is_first(&rt, b"--t1");
    let form = if is_t1 { Form::T1 } else { Form::E1 };
    ask(&rt, form, if is_t1 { 2 } else { 1 });
}
