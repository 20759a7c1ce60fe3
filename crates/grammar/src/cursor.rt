// The words of a line that are still to be read. A struct over the library's `split` would take the type of a closure as a
// parameter, and each reader with it: no plainer.
#[derive(Clone, Copy)]
pub(crate) struct Words<'a> {
    pub rest: Option<&'a [u8]>,
}
