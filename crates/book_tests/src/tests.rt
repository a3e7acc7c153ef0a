mod bodies;
mod calls;
