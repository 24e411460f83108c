// One thing for each of the three texts.
#[derive(Clone, Copy, Drop)]
pub struct Three<T> {
    pub plan: T,
    pub faults: T,
    pub site: T,
}

// The bytes of the three texts.
pub type Sources<'a> = Three<&'a [u8]>;
