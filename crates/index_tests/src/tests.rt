mod kept;
mod shelf;
mod sorted;
