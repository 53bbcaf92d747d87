#![tactic(auto)]

ghost use Rattle.laws.specs.Claims.{Bills};

/// What is promised of bills stands: see `Bills`.
pub fn stands()
    ensures { Bills }
{}
