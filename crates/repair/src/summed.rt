// A layer of some symbols, summed.

ghost use Rattle.std.specs.Prelude.{◌≡◌};
ghost use Rattle.code.specs.Layers.{sum_of_places};
ghost use Rattle.layers.specs.LayerSums.{layer_of};

use layers::Layer;

// One layer of some symbols, and its sum of places.
#[derive(Clone, Copy)]
pub struct SummedLayer<'a> {
    pub symbols: &'a [u8],
    pub layer: Layer,
    pub sum: usize,
    pub ghost summed: { sum ≡ sum_of_places (layer_of layer symbols.now) },
}
