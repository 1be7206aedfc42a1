// What a message's body says to an assembly, by the places of its fields.
ghost use Rattle.std.specs.Prelude.{◌≡◌, List, ℕ};
ghost use Rattle.sedna.specs.Allowed.{allowed};
ghost use Rattle.sedna.specs.Message.{shape_of};
ghost use Rattle.sedna_read.specs.Meaning.{body_in, part_of};
ghost use Rattle.parts_join.specs.Roles.{text_of, label_of};

use crate::Label;
use sedna::Shape;
use sedna_read::Places;
use wire::Place;

#[tactic(auto, unfolding(sedna::specs::Allowed::allowed))]
pub fn allowed_in(places: Places) -> bool
    ensures { (s : List ℕ) → result ≡ allowed (body_in s places) }
{
    match places {
        Places::Session { major, minor, .. } => sedna::version_allowed(major, minor),
        Places::Statement { format, .. } => sedna::format_allowed(format),
        Places::Item { class, kind, .. } => sedna::item_allowed(class, kind),
        Places::Empty | Places::Text(_) | Places::Coded { .. } | Places::Options { .. } => true,
    }
}

pub fn shape_in(places: Places) -> Shape
    ensures { (s : List ℕ) → result ≡ shape_of (body_in s places) }
{
    match places {
        Places::Empty => Shape::Empty,
        Places::Session { .. } => Shape::Session,
        Places::Text(_) => Shape::Text,
        Places::Statement { .. } => Shape::Statement,
        Places::Coded { .. } => Shape::Coded,
        Places::Options { .. } => Shape::Options,
        Places::Item { .. } => Shape::Item,
    }
}

// Where the text stands that a message adds: at no place for an end.
pub fn text_in(places: Places) -> Place
    ensures { (s : List ℕ) → part_of s result ≡ text_of (body_in s places) }
{
    match places {
        Places::Text(text) | Places::Statement { text, .. } | Places::Item { part: text, .. } =>
            text,
        Places::Empty | Places::Session { .. } | Places::Coded { .. } | Places::Options { .. } => {
            Place { start: 0, len: 0 }
        }
    }
}

pub fn label_in(places: Places) -> Label
    ensures { (s : List ℕ) → result ≡ label_of (body_in s places) }
{
    match places {
        Places::Statement { format, .. } => Label {
            format,
            ..Label::NONE
        },
        Places::Item { class, kind, .. } => Label {
            class,
            kind,
            ..Label::NONE
        },
        Places::Empty
        | Places::Session { .. }
        | Places::Text(_)
        | Places::Coded { .. }
        | Places::Options { .. } => Label::NONE,
    }
}
