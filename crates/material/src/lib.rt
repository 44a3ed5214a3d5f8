// The size of a table gate's material: labels in rows, and the table's bits.
#![tactic(auto)]

ghost use Rattle.std.specs.Prelude.{◌≡◌, ◌*◌, ◌^◌, ◌≤◌};
ghost use Rattle.labels.specs.Kind.{widest};
ghost use Rattle.material.specs.Size.{table_bits, bits_of, bytes_of, WholeBytes};

// The rows of a table of n inputs.
pub fn row_count(n: usize) -> usize
    requires { n ≤ 8 }
    ensures { result ≡ 2 ^ n }
{
    1 << n
}

// The material's bits without the filling, for labels of kappa bits.
pub fn table_bits(kappa: usize, n: usize, m: usize) -> usize
    requires narrow { kappa ≤ 8 * widest }
    requires some_input { 1 ≤ n }
    requires inputs { n ≤ 8 }
    requires outputs { m ≤ 16 }
    ensures { result ≡ table_bits kappa n m }
{
    (n - 1) * kappa + n * m * kappa + row_count(n) * m
}

// The same for labels of so many bytes.
pub fn bit_count(width: usize, n: usize, m: usize) -> usize
    requires narrow { width ≤ widest }
    requires some_input { 1 ≤ n }
    requires inputs { n ≤ 8 }
    requires outputs { m ≤ 16 }
    ensures { result ≡ bits_of width n m }
{
    table_bits(8 * width, n, m)
}

// Its bytes.
pub fn byte_count(width: usize, n: usize, m: usize) -> usize
    requires narrow { width ≤ widest }
    requires some_input { 1 ≤ n }
    requires inputs { n ≤ 8 }
    requires outputs { m ≤ 16 }
    ensures { result ≡ bytes_of width n m }
{
    (n - 1 + n * m) * width + (row_count(n) * m).div_ceil(8)
}

// A material's bytes are its bits, filled up to whole bytes.
pub fn bytes_stand()
    ensures { WholeBytes }
{}
