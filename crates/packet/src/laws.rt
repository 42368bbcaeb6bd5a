// Laws of checksums, on any bytes.
ghost use Rattle.packet.specs.Laws.{ChecksumPasses, SumFolds, WordsSumToOnes};

// A header with the computed checksum is right, and the words of a right one sum to sixteen ones.
pub fn checksums_pass()
    ensures passes { ChecksumPasses }
    ensures folds { SumFolds }
    ensures ones { WordsSumToOnes }
{}
