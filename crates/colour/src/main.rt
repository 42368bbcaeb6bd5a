// Colours the arrivals of standard input by one meter, which the arguments buy.
#![tactic(auto)]

mod arrivals;
mod entries;
mod purchase;
mod session;
mod texts;
mod words;

ghost use Rattle.std.specs.Prelude.{◌≤◌, length, IfOk};

use entries::Stop;
use kinds::profiles::AnyMeter;
use purchase::{Word, buy};
use session::Session;
use std::alloc::AllocError;
use std::env::FillError;
use std::io;
use std::io::{ErrorKind, Read, Write};
use std::rt::Env;

// Bytes that are read, and about as many that are written, at once.
const BLOCK: usize = 65_536;

// The longest meter has five words; one more shows that there are too many.
const MOST_WORDS: usize = 6;

// The longest argument that is read as a word.
const LONGEST_WORD: usize = 64;

// The word at an argument, if there is one. One that is too long for a word is no word that is known.
fn word_at(rt: &HostRuntime, i: usize) -> Option<Word> {
    let mut text = [0u8; LONGEST_WORD];
    match rt.arg(i, &mut text) {
        Ok(n) => Some(Word::read(&text[..n])),
        Err(FillError::TooLong) => Some(Word::read(&[])),
        Err(FillError::NotPresent) => None,
    }
}

// The words after the program's name. `env::args` would fail on an argument that is no text.
fn meter_words(rt: &HostRuntime) -> Result<Vec<Word>, AllocError> {
    let mut words = Vec::new(rt.alloc());
    for word in (1..=MOST_WORDS).map_while(|i| word_at(rt, i)) {
        words.push(word)?;
    }
    Ok(words)
}

// The next bytes of the input; none at its end. A read that a signal cut short is made again.
// A count that no run reaches ends this loop and the next one: `loop` and `rt.forever()` want a `Wait` bound.
fn read_block<R: Read>(input: &mut R, block: &mut [u8]) -> io::Result<usize>
    ensures { IfOk result (λ n. n ≤ length block.new) }
{
    for _ in 0..u64::MAX {
        match input.read(block) {
            Ok(n) => return Ok(n),
            Err(e) => if e.kind() != ErrorKind::Interrupted {
                return Err(e);
            },
        }
    }
    Err(ErrorKind::Interrupted.into())
}

fn colour_input(rt: &HostRuntime, meter: AnyMeter) -> anyhow::Result<()> {
    let (mut input, mut output) = (rt.stdin(), rt.stdout());
    let mut session = Session::new(rt.alloc(), meter);
    let mut out = String::new(rt.alloc());
    let mut block = [0u8; BLOCK];
    for _ in 0..u64::MAX {
        let n = read_block(&mut input, &mut block)?;
        if n == 0 {
            session.finish(&mut out)?;
            output.write_all(out.as_bytes())?;
            output.flush()?;
            return Ok(());
        }
        session.feed(&block[..n], &mut out)?;
        if out.len() >= BLOCK {
            output.write_all(out.as_bytes())?;
            out.clear();
        }
    }
    Err(Stop::TooMany.into())
}

fn run(rt: &HostRuntime) -> anyhow::Result<()> {
    let words = meter_words(rt)?;
    match buy(&words) {
        Ok(meter) => colour_input(rt, meter)?,
        Err(fault) => print!(rt; "{fault}")?,
    }
    Ok(())
}

fn main(rt: HostRuntime) -> anyhow::Result<()> {
    run(&rt)
}

#[cfg(test)]
mod tests {
    use crate::purchase::{Word, buy};
    use crate::session::colour_text;
    use std::alloc::Global;
    use std::process::Abort;
    use std::test::Fail;

    // The text for a meter's words, with one space between two, and an input.
    fn text_for(heap: Global, meter: &str, input: &str) -> Result<String, Fail> {
        let mut words = Vec::new(heap);
        for word in meter.split(' ') {
            words.push(Word::read(word.as_bytes()))?;
        }
        match buy(&words) {
            Ok(meter) => Ok(colour_text(heap, meter, input.as_bytes())?),
            Err(fault) => Ok(format!(in heap; "{fault}")?),
        }
    }

    fn tells(
        rt: &impl Abort,
        heap: Global,
        meter: &str,
        input: &str,
        expected: &str,
    ) -> Result<(), Fail> {
        let text = text_for(heap, meter, input)?;
        assert_eq!(rt; text.as_str(), expected, "{}", meter);
        Ok(())
    }

    // Worked out by hand from the rules of each meter.
    #[test]
    fn other_meters(rt: HostRuntime) -> Result<(), Fail> {
        let heap = rt.alloc();
        let gcra = "1 green\n2 red\n3 red\n4 green\ntotal green 2 2 yellow 0 0 red 2 2\n";
        tells(&rt, heap, "vs 10 5", "0 1\n0 1\n4 1\n5 1", gcra)?;
        tells(&rt, heap, "lb 10 5", "0 1\n0 1\n4 1\n5 1\n", gcra)?;
        let token = "1 green\n2 red\n3 green\ntotal green 2 2 yellow 0 0 red 1 1\n";
        tells(&rt, heap, "tb 1 1", "0 1\n999999 1\n1000000 1\n", token)?;
        let two = "1 green\n2 yellow\n3 red\ntotal green 1 500 yellow 1 300 red 1 1\n";
        tells(
            &rt,
            heap,
            "tr 1000 500 2000 800",
            "0 500\n0 300\n0 1\n",
            two,
        )
    }

    #[test]
    fn words_at_fault(rt: HostRuntime) -> Result<(), Fail> {
        let heap = rt.alloc();
        tells(&rt, heap, "tb 0 x", "0 1\n", "meter word 2 refused 2\n")?;
        tells(&rt, heap, "sr 500 0 0", "0 1\n", "meter word 4 refused 3\n")?;
        tells(
            &rt,
            heap,
            "tr 1000 500 999 800",
            "0 1\n",
            "meter word 4 refused 4\n",
        )?;
        tells(
            &rt,
            heap,
            "tr 1000 500 1000",
            "0 1\n",
            "meter word 5 refused 1\n",
        )?;
        tells(
            &rt,
            heap,
            "sr 500 400 300 1",
            "0 1\n",
            "meter word 5 refused 1\n",
        )
    }
}
