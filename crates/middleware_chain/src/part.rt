//! A declared middleware by itself.
use middleware_graph::MiddlewareFault;
use middleware_stage::Stage;
use px_base::List;

// A declared middleware by itself, before chains are judged by their members.
#[derive(Drop)]
pub(crate) enum Part {
    // It was built.
    Stage(Stage),
    // It has a fault of its own.
    Faulty(MiddlewareFault),
    // It stands for these, each by its place among all middlewares; None is one that isn't declared.
    Chain(List<Option<usize>>),
}
