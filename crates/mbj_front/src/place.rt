use mbj_core::View;

/// How many parties a front has.
#[derive(Drop)]
pub struct Size {
    /// How many submitters it has.
    pub submitters: u32,
    /// How many workers it has.
    pub workers: u32,
}

/// What a seat of the table knows, as contracts name it. No value of it is made when the program runs.
pub struct Place<D> {
    /// How many submitters the front has.
    pub submitters: u32,
    /// How many workers it has.
    pub workers: u32,
    /// Whether parties are cut from this place. Then it is no party's, and the number in its view is that of the party
    /// that is cut next.
    pub root: bool,
    /// The party's part of the front.
    pub view: View<D>,
}
