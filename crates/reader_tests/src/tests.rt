mod rules;
mod script;
