mod deep;
mod gated;
mod makes;
