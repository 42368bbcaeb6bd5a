// The laws of a line, each as what a function ensures.
ghost use Rattle.policy_text.specs.Laws.{LineCanonical, LineWritten, LineFirst};

// A line is written in one way, and read from it; the word that is refused is the first at fault.
pub fn lines_have_one_text()
    ensures canonical { LineCanonical }
    ensures written { LineWritten }
    ensures first { LineFirst }
{}
