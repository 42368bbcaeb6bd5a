// The laws of the words, each as what a function ensures.
ghost use Rattle.policy_words.specs.Laws.{NumberLaw, WordsLaw};

// A number that is written is read back.
pub fn numbers_read_back()
    ensures { NumberLaw }
{}

// Each word is written in one way, and read from it.
pub fn words_have_one_text()
    ensures { WordsLaw }
{}
