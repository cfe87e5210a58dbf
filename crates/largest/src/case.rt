// A task whose table is built, and how it is run.
use crate::limit::Limit;
use adl::Sizes;
use trials::Rows;

#[derive(Drop)]
pub(crate) struct Case {
    pub(crate) limit: Limit,
    pub(crate) sizes: Sizes,
    pub(crate) rows: Rows,
    // Every operator is performed once, in their order, with these objects. None: the task is only instantiated.
    pub(crate) objects: Option<&'static [u32]>,
}
