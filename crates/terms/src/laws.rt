ghost use Rattle.terms.specs.Laws.{WiresByBytes, RowsByWires, HighMeansAll, Values, Rises, SameMeansEqual, Canonical};
ghost use Rattle.terms.specs.Examples.{Worked};

// Sets and rows by their wires.
pub fn sets_mean_wires()
    ensures bytes { WiresByBytes }
    ensures rows { RowsByWires }
    ensures high { HighMeansAll }
{}

// Values of sums and products, and what keeps forms rising.
pub fn forms_add_up()
    ensures values { Values }
    ensures rises { Rises }
{}

// Equal forms are those that come to the same in every row.
pub fn forms_are_canonical()
    ensures same { SameMeansEqual }
    ensures canonical { Canonical }
{}

// The small forms that were worked out by hand.
pub fn examples_stand()
    ensures { Worked }
{}
