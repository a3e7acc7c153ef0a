mod desk;
mod lines;
mod stages;
