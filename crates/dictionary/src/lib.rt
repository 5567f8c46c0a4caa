// The dictionary of types: the table of the page, and what follows from it. A type is handed over as its number. Every function
// answers every number, one that is no type too.
#![tactic(auto)]

pub mod answers;
pub mod kinds;
pub mod pairs;
pub mod parents;
pub mod shapes;
pub mod tags;
pub mod types;

pub use answers::{Attribute, Name};
pub use kinds::{attribute, attributes};
pub use pairs::subtype;
pub use parents::parent;
pub use shapes::{mark_in, shape};
pub use tags::{TAGS, barred, named};
pub use types::{NoType, TYPES, Type, is_type, name, schema};
