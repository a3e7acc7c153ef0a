mod nodes;
mod records;
