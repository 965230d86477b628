mod attributes;
mod directed_steps;
mod packets;
