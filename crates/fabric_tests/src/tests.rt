mod agents;
mod fabric;
