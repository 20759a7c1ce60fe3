// Making a portion.
ghost use Rattle.progress.specs.Sizes.{Sized};

use crate::portion::Portion;

impl Portion {
    // A portion of so many cells; none where that is 0.
    pub fn new(size: u32) -> Option<Portion>
        ensures { Sized size result }
    {
        if size > 0 {
            Some(Portion { size })
        } else {
            None
        }
    }
}
