/// Who asks, when, and what is noted of it.
#[derive(Clone, Copy)]
pub struct Asker<'a> {
    pub name: &'a str,
    /// As it is told: no clock is asked here.
    pub at: &'a str,
    pub note: &'a str,
}
