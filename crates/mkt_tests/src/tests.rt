mod base;
mod printing;
mod shelves;
mod text;
