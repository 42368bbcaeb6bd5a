// A record offered to the flows and nodes.
ghost use Rattle.std.specs.Prelude.{◌≡◌, [], ◌∷◌, ◌++◌, map};
ghost use Rattle.paths.specs.Layers.{layers_of, fits_at, over_at};
ghost use Rattle.history.specs.Answers.{judged};
ghost use Rattle.history.specs.Histories.{Config, History, entry_of, answer_of};
ghost use Rattle.history.specs.Tracks.{Fair};
ghost use Rattle.policing.specs.Flows.{SameSlices};
ghost use Rattle.policing.specs.Moving.{Came, Settles, RuleAt};
ghost use Rattle.policing.specs.Holding.{offer_of, Ruled, Holds};
ghost use Rattle.policy.specs.declared.rules.Rule.{Rule};

use crate::cores::{Core, Flow, Offer};
use crate::judging::{Passage, pass};
use history::answers::{Answer, Refusal};
use meter::measures::Load;
use meter::metering::Meter;
use packet::kinds::Key;
use paths::path::Path;

impl<'a, M: Meter + Copy> Core<'a, M> {
    // Judges a packet by a flow's meter that stands at `start`, and keeps the meter where the packet is carried.
    fn pass_on(&mut self, key: Key, row: Option<usize>, start: M, passage: &Passage) -> Answer
        ensures same { SameSlices self.old.flows self.new.flows }
        ensures judged { result ≡ judged (fits_at passage.now.load (M.meaning start) (map M.meaning self.old.nodes.items)) (over_at passage.now.load (M.meaning start) (map M.meaning self.old.nodes.items)) passage.now.arrival (layers_of passage.now.path) }
        ensures came { Came M.meaning self.old self.new passage.now.load key (layers_of passage.now.path) row (M.meaning start) result }
    {
        let mut meter = start;
        let colour = pass(&mut meter, &mut self.nodes, passage)?;
        self.flows.keep(key, row, meter);
        Ok(colour)
    }

    // A flow without a row starts with its rule's meter, and gets a row exactly if its packet is carried.
    fn settle(&mut self, load: Load, flow: Flow) -> Answer
        ensures same { SameSlices self.old.flows self.new.flows }
        ensures settles { (x : Rule M) → RuleAt self.old.rules.items flow.rule x → Settles M.meaning self.old self.new load flow x result }
    {
        let rule = *self.rules.get(flow.rule).ok_or(Refusal::NoRule)?;
        let passage = Passage {
            path: Path::new(self.tree.parents(), rule.parent),
            load,
            arrival: flow.arrival,
        };
        match self.flows.look(flow.key)? {
            Some(held) => self.pass_on(flow.key, Some(held.row), held.meter, &passage),
            None => self.pass_on(flow.key, None, rule.meter, &passage),
        }
    }

    // The answer is that of the history, whatever history is held; and then the longer one is.
    pub(crate) fn offer(&mut self, offer: Offer) -> Answer
        ensures same { SameSlices self.old.flows self.new.flows }
        ensures lawful { (g : Config) (h : History) → Holds M.meaning g self.old h → Fair (offer_of offer) → Ruled self.old offer → (result ≡ answer_of g h (offer_of offer)) × Holds M.meaning g self.new (h ++ (entry_of (offer_of offer) result ∷ [])) }
    {
        if offer.load.moment < self.clock {
            return Err(Refusal::Backward);
        }
        self.clock = offer.load.moment;
        self.settle(offer.load, offer.flow?)
    }
}
