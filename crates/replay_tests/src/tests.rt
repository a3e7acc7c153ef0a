mod days;
mod node_table;
mod refusals;
mod replay;
mod show_table;
mod table;
