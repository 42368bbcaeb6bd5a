// Notes what was answered.
ghost use Rattle.std.specs.Prelude.{◌≡◌, [], if◌then◌else◌, Some, None, nat_lt};
ghost use Rattle.history.specs.Histories.{Config, History};
ghost use Rattle.totals.specs.Totals.{named_by, total_of, one_more, bumped, denied, changed_in, bumped_all, refused_in, Counts, Noted};
ghost use Rattle.totals.specs.declared.rows.Total.{Total};

use crate::rows::{Count, ROWS, Total, Totals};
use history::answers::{Answer, Refusal};
use meter::measures::{Colour, Size};

// The node that a refusal names, 0 for none: the same 0 that a place has at a flow's meter, which no row is for.
fn named(refusal: Refusal) -> u8
    ensures { result ≡ named_by refusal }
{
    match refusal {
        Refusal::OverDepth(place) | Refusal::OverExcess(place) => place.node,
        _ => 0,
    }
}

impl Count {
    // With a packet more.
    fn with(self, size: Size) -> Count
        ensures { result ≡ one_more self size.0 }
    {
        Count {
            packets: self.packets.saturating_add(1),
            bytes: self.bytes.saturating_add(u64::from(size.0)),
        }
    }
}

impl Total {
    // With a carried packet more.
    fn bump(self, colour: Colour, size: Size) -> Total
        ensures { result ≡ bumped self colour size.0 }
    {
        match colour {
            Colour::Green => Total {
                green: self.green.with(size),
                ..self
            },
            Colour::Yellow => Total {
                yellow: self.yellow.with(size),
                ..self
            },
        }
    }

    // With a refusal more.
    fn deny(self) -> Total
        ensures { result ≡ denied self }
    {
        Total {
            refused: self.refused.saturating_add(1),
            ..self
        }
    }
}

impl Totals {
    pub fn new() -> Totals
        ensures { (g : Config) → Counts g [] result }
    {
        Totals {
            offered: 0,
            rows: [Total::default(); ROWS],
        }
    }

    // The totals of the line, at 0, or of a node.
    pub fn row(&self, node: u8) -> Option<Total>
        ensures { (g : Config) (h : History) → Counts g h self.now → result ≡ (if nat_lt node 33 then Some (total_of g h node) else None) }
    {
        self.rows.get(usize::from(node)).copied()
    }

    // Changes the row of that number, if there is one.
    fn change<F: FnOnce(Total) -> Total>(&mut self, node: u8, change: F)
        requires { F.IsAlwaysCallable change }
        ensures { (f : Total → Total) → ((r s : Total) → F.post change r s → s ≡ f r) → self.new ≡ record self.old { rows = changed_in f self.old.rows node } }
    {
        let at = usize::from(node);
        // No `get_mut`: it says nothing of what the rows end as.
        if at < ROWS {
            self.rows[at] = change(self.rows[at]);
        }
    }

    // Every row of the path counts the packet.
    fn carry(&mut self, path: &[u8], size: Size, colour: Colour)
        ensures { self.new ≡ record self.old { rows = bumped_all self.old.rows path.now colour size.0 } }
    {
        for node in path {
            self.change(*node, |row| row.bump(colour, size));
        }
    }

    // The line counts the refusal, and the node that it names.
    fn refuse(&mut self, node: u8)
        ensures { self.new ≡ record self.old { rows = refused_in self.old.rows node } }
    {
        self.change(0, Total::deny);
        if node != 0 {
            self.change(node, Total::deny);
        }
    }

    // One record more. The path is that of a carried record: 0, for the line, and its nodes.
    pub fn note(&mut self, path: &[u8], size: Size, answer: Answer)
        ensures { Noted path.now size.0 answer self.old self.new }
    {
        self.offered = self.offered.saturating_add(1);
        match answer {
            Ok(colour) => self.carry(path, size, colour),
            Err(refusal) => self.refuse(named(refusal)),
        }
    }
}
