// A meter over a text of arrivals that comes in blocks, and the text that answers it.
ghost use Rattle.std.specs.Prelude.{◌≡◌, ℕ, List, [], ◌∷◌, ◌++◌, IfOk, string_bytes, MatchResult, OnOk};
ghost use Rattle.colour.specs.declared.entries.Stop.TheVariants.{TooMany};
ghost use Rattle.kinds.specs.Kinds.{any_meaning};
ghost use Rattle.colour.specs.Texts.{counts_text};
ghost use Rattle.colour.specs.Told.{told};
ghost use Rattle.colour.specs.Report.{more, Overflows, Noted, report, text_from, answer_of, meter_after, held_line, Judged, Ended, Goes};

use crate::arrivals::{LONGEST_LINE, read_arrival};
use crate::entries::{Count, Counts, Entry, Rejection, Stop, Verdict};
use kinds::profiles::AnyMeter;
use meter::alone::colour_packet;
use meter::measures::{PacketColour, Size};
use std::alloc::Global;

impl Count {
    fn and(self, size: Size) -> Result<Count, Stop>
        ensures { MatchResult result (λ c. c ≡ more self size.0) (λ stop. (stop ≡ TooMany) × Overflows self size.0) }
    {
        let packets = self.packets.checked_add(1).ok_or(Stop::TooMany)?;
        let bytes = self
            .bytes
            .checked_add(u64::from(size.0))
            .ok_or(Stop::TooMany)?;
        Ok(Count { packets, bytes })
    }
}

impl Counts {
    // One packet more of a colour, exactly; too many, and nothing changed, where a sum would not fit.
    // An arm a colour: counts by name are plainer than a map from colours to them.
    pub fn note(&mut self, colour: PacketColour, size: Size) -> Result<(), Stop>
        ensures { Noted self.old colour size.0 self.new result }
    {
        match colour {
            PacketColour::Green => self.green = self.green.and(size)?,
            PacketColour::Yellow => self.yellow = self.yellow.and(size)?,
            PacketColour::Red => self.red = self.red.and(size)?,
        }
        Ok(())
    }
}

// One meter over the lines of one input. The text of the answers is the caller's, who writes it out and clears it between blocks.
#[derive(Drop)]
pub struct Session {
    meter: AnyMeter,
    // how many lines are answered
    lines: u64,
    counts: Counts,
    // the line that has begun, up to one byte more than the longest
    held: Vec<u8>,
}

impl Session {
    // No line is answered, and none has begun.
    pub fn new(heap: Global, meter: AnyMeter) -> Session
        ensures value { (input : List ℕ) → text_from result input ≡ report (any_meaning meter) input }
        ensures told { (input : List ℕ) → text_from result input ≡ told (any_meaning meter) input }
    {
        Session {
            meter,
            lines: 0,
            counts: Counts::default(),
            held: Vec::new(heap),
        }
    }

    // The colour and the size of the line that is held; its packet is charged.
    fn colour(&mut self) -> Result<(PacketColour, Size), Rejection>
        ensures answer { result ≡ answer_of (any_meaning self.old.meter) (held_line self.old) }
        ensures meter { any_meaning self.new.meter ≡ meter_after (any_meaning self.old.meter) (held_line self.old) }
        ensures same { (self.new.lines ≡ self.old.lines) × (self.new.counts ≡ self.old.counts) }
    {
        let arrival = read_arrival(&self.held)?;
        let colour = colour_packet(&mut self.meter, arrival)?;
        Ok((colour, arrival.size))
    }

    // Colours and counts the line that is held.
    fn judge(&mut self) -> Result<Verdict, Stop>
        ensures { IfOk result (λ v. Judged self.old v self.new) }
    {
        let answer = self.colour();
        if let Ok((colour, size)) = answer {
            self.counts.note(colour, size)?;
        }
        Ok(answer.map(|(colour, _)| colour))
    }

    // Answers the line that is held, and begins the next.
    fn end_line(&mut self, out: &mut String) -> Result<(), Stop>
        ensures { OnOk result (Ended self.old (string_bytes out.old) self.new (string_bytes out.new)) }
    {
        let number = self.lines.checked_add(1).ok_or(Stop::TooMany)?;
        let verdict = self.judge()?;
        let entry = Entry { number, verdict };
        write!(out, "{entry}")?;
        self.lines = number;
        self.held.clear();
        Ok(())
    }

    #[tactic(auto, using(crate::proofs::Reports::ended_goes, crate::proofs::Reports::skipped_goes))]
    fn take(&mut self, byte: u8, out: &mut String) -> Result<(), Stop>
        ensures { OnOk result (Goes self.old (string_bytes out.old) (byte ∷ []) self.new (string_bytes out.new)) }
    {
        if byte == b'\n' {
            return self.end_line(out);
        }
        if self.held.len() <= LONGEST_LINE {
            self.held.push(byte)?;
        }
        Ok(())
    }

    // Takes the next bytes of the input; adds the answers to the lines that they end.
    pub fn feed(&mut self, block: &[u8], out: &mut String) -> Result<(), Stop>
        ensures { OnOk result (Goes self.old (string_bytes out.old) block.now self.new (string_bytes out.new)) }
    {
        for byte in block {
            self.take(*byte, out)?;
        }
        Ok(())
    }

    // Answers a last line without a line feed.
    #[tactic(auto, using(crate::proofs::Reports::last_none, crate::proofs::Reports::last_ended))]
    fn end_last(&mut self, out: &mut String) -> Result<(), Stop>
        ensures { OnOk result (string_bytes out.old ++ text_from self.old [] ≡ string_bytes out.new ++ counts_text self.new.counts) }
    {
        if self.held.is_empty() {
            return Ok(());
        }
        self.end_line(out)
    }

    // At the input's end: adds the answer to a last line without a line feed, and the totals.
    pub fn finish(mut self, out: &mut String) -> Result<(), Stop>
        ensures { OnOk result (string_bytes out.new ≡ string_bytes out.old ++ text_from self []) }
    {
        self.end_last(out)?;
        let counts = self.counts;
        write!(out, "{counts}")?;
        Ok(())
    }
}

// The whole text for a whole input.
pub fn colour_text(heap: Global, meter: AnyMeter, input: &[u8]) -> Result<String, Stop>
    ensures value { IfOk result (λ t. string_bytes t ≡ report (any_meaning meter) input.now) }
    ensures told { IfOk result (λ t. string_bytes t ≡ told (any_meaning meter) input.now) }
{
    let mut out = String::new(heap);
    let mut session = Session::new(heap, meter);
    session.feed(input, &mut out)?;
    session.finish(&mut out)?;
    Ok(out)
}
