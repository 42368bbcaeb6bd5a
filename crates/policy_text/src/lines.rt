// A line of a policy, without the byte that ends it, and where in it a fault stands.
ghost use Rattle.std.specs.Prelude.{◌≡◌};
ghost use Rattle.policy_text.specs.Places.{placed};

use kinds::profiles::Profile;
use policy::rules::Rule;
use policy_words::causes::Cause;

// The word of a line that is refused, from 1, and why. Word 0 is the line as a whole: so it is printed.
#[derive(Clone, Copy, PartialEq, Eq, Debug)]
pub struct LineFault {
    pub word: u8,
    pub cause: Cause,
}

// A node by its number, the node that it lies under, and what was bought for it.
#[derive(Clone, Copy)]
pub struct NodeLine {
    pub number: u8,
    pub parent: u8,
    pub profile: Profile,
}

// A rule has what was bought in its meter's place.
#[derive(Clone, Copy)]
pub enum Line {
    Node(NodeLine),
    Rule(Rule<Profile>),
}

// What a word's reader answered, with the word's place added to its fault. The place is written at each reading: a
// counter beside the text would stand in every contract.
pub(crate) fn at<T>(word: u8, read: Result<T, Cause>) -> Result<T, LineFault>
    ensures { result ≡ placed word read }
{
    read.map_err(|cause| LineFault { word, cause })
}
