/// The tableau of a basis. It has no value, since no basis is read.
pub enum Tableau {}
