//! Tokens that a refusal may stand at.
ghost use Rattle.std.specs.Prelude.{◌≡◌, IfOk};
ghost use Rattle.floyd_elab_names.specs.Refusals.{site_of};
ghost use Rattle.floyd_elab_names.specs.Declarators.{parenthesis as parenthesis_lem, bracket as bracket_lem, first_star as first_star_lem};
ghost use Rattle.floyd_elab_names.specs.Declarators.{ampersand as ampersand_lem, sizeof_site as sizeof_site_lem};

use floyd_cparse_trees::{Identifier, Star};
use floyd_text::{Name, Place};
use std::alloc::{AllocError, Global};
use std::marker::Model;

enum Text {
    Parenthesis,
    Bracket,
    Star,
    Ampersand,
    SizeOf,
    Name(Name),
}

impl Drop for Text {
    fn drop(self) {
        match self {
            Text::Parenthesis => {}
            Text::Bracket => {}
            Text::Star => {}
            Text::Ampersand => {}
            Text::SizeOf => {}
            Text::Name(name) => drop(name),
        }
    }
}

/// A token that a refusal may stand at. Contracts see its place and its text.
pub struct Site {
    place: Place,
    text: Text,
}

impl Drop for Site {
    fn drop(self) {
        let Site { place: _, text } = self;
        drop(text);
    }
}

impl Model for Site {
    ghost use Rattle.floyd_elab_names.specs.Refusals.{Site};

    ghost Value = { Site };

    ghost use Rattle.floyd_elab_names.specs.SiteClauses.{text_of};

    ghost view = { λ s. record { place = s.place; text = text_of s.text } };
}

impl Site {
    pub fn of(i: &Identifier) -> Result<Site, AllocError>
        ensures { IfOk result (λ s. s ≡ site_of i.now) }
    {
        Ok(Site {
            place: i.place,
            text: Text::Name(i.name.share()?),
        })
    }

    pub fn parenthesis(place: Place) -> Site
        ensures { result ≡ parenthesis_lem place }
    {
        Site {
            place,
            text: Text::Parenthesis,
        }
    }

    pub fn bracket(place: Place) -> Site
        ensures { result ≡ bracket_lem place }
    {
        Site {
            place,
            text: Text::Bracket,
        }
    }

    pub fn ampersand(place: Place) -> Site
        ensures { result ≡ ampersand_lem place }
    {
        Site {
            place,
            text: Text::Ampersand,
        }
    }

    pub fn sizeof(place: Place) -> Site
        ensures { result ≡ sizeof_site_lem place }
    {
        Site {
            place,
            text: Text::SizeOf,
        }
    }

    /// The first star, or this token where there is none.
    pub(crate) fn first_star(&self, stars: &[Star]) -> Result<Site, AllocError>
        ensures { IfOk result (λ s. s ≡ first_star_lem self.now stars.now) }
    {
        match stars {
            [] => self.share(),
            [first, ..] => Ok(Site {
                place: first.place,
                text: Text::Star,
            }),
        }
    }

    pub fn share(&self) -> Result<Site, AllocError>
        ensures { IfOk result (λ s. s ≡ self.now) }
    {
        Ok(Site {
            place: self.place,
            text: match &self.text {
                Text::Parenthesis => Text::Parenthesis,
                Text::Bracket => Text::Bracket,
                Text::Star => Text::Star,
                Text::Ampersand => Text::Ampersand,
                Text::SizeOf => Text::SizeOf,
                Text::Name(name) => Text::Name(name.share()?),
            },
        })
    }

    pub fn place(&self) -> Place
        ensures { result ≡ self.now.place }
    {
        self.place
    }

    pub fn text(&self, alloc: Global) -> Result<Name, AllocError>
        ensures { IfOk result (λ n. n ≡ self.now.text) }
    {
        match &self.text {
            Text::Parenthesis => Name::from_slice(alloc, b"("),
            Text::Bracket => Name::from_slice(alloc, b"["),
            Text::Star => Name::from_slice(alloc, b"*"),
            Text::Ampersand => Name::from_slice(alloc, b"&"),
            Text::SizeOf => Name::from_slice(alloc, b"sizeof"),
            Text::Name(name) => name.share(),
        }
    }
}
