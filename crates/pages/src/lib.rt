//! Pages of the documentation that the program prints, and the rows of their tables.

// The check tries its tactics on what is left of each proof.
#![tactic(auto)]

mod kernels_page;
mod policy_page;
mod readable_page;
mod rows;
mod scripts_page;

pub use rows::{readable_rows_of, rows_of};

/// A page.
#[derive(Clone, Copy, Debug, PartialEq, Eq)]
pub enum Page {
    /// On scripts: the lines, the replies, and what to do.
    Scripts,
    /// On policies.
    Policy,
    /// On how a kernel runs.
    Kernels,
    /// On readable lines.
    Readable,
}

impl Page {
    /// The page of a name.
    pub fn named(name: &str) -> Option<Page> {
        match name {
            "scripts" => Some(Page::Scripts),
            "policy" => Some(Page::Policy),
            "kernels" => Some(Page::Kernels),
            "readable" => Some(Page::Readable),
            _ => None,
        }
    }

    /// Its text.
    pub fn text(self) -> &'static str {
        match self {
            Page::Scripts => scripts_page::TEXT,
            Page::Policy => policy_page::TEXT,
            Page::Kernels => kernels_page::TEXT,
            Page::Readable => readable_page::TEXT,
        }
    }
}
