use dg_model::Site;
use std::marker::Model;

/// The sites of each block, in the order of taking. Contracts see a list of lists.
#[derive(Debug, Drop)]
pub struct SiteLists {
    lists: Vec<Vec<Site>>,
}

impl Model for SiteLists {
    ghost use Rattle.std.specs.Prelude.{List};
    ghost use Rattle.dg_model.specs.declared.sites.Site.{Site};

    ghost Value = { List (List Site) };

    ghost use Rattle.dg_save.specs.Parts.{rows_in};

    ghost view = { λ sites. rows_in sites.lists.items };
}

impl SiteLists {
    ghost use Rattle.std.specs.Prelude.{◌≡◌};
    ghost use Rattle.dg_save.specs.Parts.{rows_in};

    /// Takes the lists of a vector, one for each block, without a copy.
    pub fn new(lists: Vec<Vec<Site>>) -> SiteLists
        ensures { result ≡ rows_in lists.items }
    {
        SiteLists { lists }
    }

    /// The lists, by block.
    pub fn as_vec(&self) -> &Vec<Vec<Site>>
        ensures { rows_in result.now.items ≡ self.now }
    {
        &self.lists
    }
}
