mod check;
mod grid;
mod law;
mod program;
