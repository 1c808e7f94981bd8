//! Small networks and orders with what is known of them, proved of the definitions by computing.
//! The table is in specs/Examples.antt; the function computes nothing.
ghost use Rattle.std.specs.Prelude.{◌≡◌, true};
ghost use Rattle.elimination.specs.Examples.{all_stand, table};

/// Every claim of the table of examples holds.
pub fn examples_stand()
    ensures { all_stand table ≡ true }
{}
