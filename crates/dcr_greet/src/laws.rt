ghost use Rattle.dcr_greet.specs.Laws.{GreetAsOne, SitesAreLetIn, WrongLinesAreWrong};

/// What a site of the case answers a challenge is let in, where it has its key.
pub fn sites_are_let_in()
    ensures { SitesAreLetIn }
{}

/// Bytes are the hello of one site alone.
pub fn hellos_name_one_site()
    ensures { GreetAsOne }
{}

/// A text that has a wrong line is no text of keys.
pub fn wrong_lines_are_wrong()
    ensures { WrongLinesAreWrong }
{}
