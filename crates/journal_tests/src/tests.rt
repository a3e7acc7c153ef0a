mod adoption;
mod cases;
mod issues;
mod turns;
