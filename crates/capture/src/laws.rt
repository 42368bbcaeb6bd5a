// The laws of reading and writing.
ghost use Rattle.capture.specs.Laws.{ReadsAgree, IndexesAgree, WrittenReads, FramesLie, DecidedStays, NumbersSpelt};

// A capture has one reading and one index, so that no cut into blocks can change them.
pub fn readings_agree()
    ensures reads { ReadsAgree }
    ensures indexes { IndexesAgree }
{}

// What is written reads as itself, and each frame that is read lies in the capture, at its place. The numbers are
// those of their bytes.
pub fn written_reads_back()
    ensures written { WrittenReads }
    ensures frames { FramesLie }
    ensures stays { DecidedStays }
    ensures numbers { NumbersSpelt }
{}
