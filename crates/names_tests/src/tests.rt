mod functions;
mod labels;
mod locals;
mod parameters;
mod same;
mod spaces;
mod visible;
