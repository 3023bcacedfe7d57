// The height of a layer.
ghost use Rattle.std.specs.Prelude.{◌≡◌, ℕ};
ghost use Rattle.device.specs.Layers.{layer_height};

/// One more than the height below, at most 255.
pub fn layer_height(height: u8) -> u8
    ensures { result ≡ layer_height height }
{
    height.saturating_add(1)
}
