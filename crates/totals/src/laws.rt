// The law of the line's totals, of every history.
ghost use Rattle.totals.specs.Totals.{LineLaw};

// As many records were offered as the line counts green, yellow and refused together.
pub fn line_adds_up()
    ensures { LineLaw }
{}
