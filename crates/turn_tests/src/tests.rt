mod callers;
mod journal;
mod turns;
