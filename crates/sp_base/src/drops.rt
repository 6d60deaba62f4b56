// What a function does with its values where it gives up.

/// The value of a result, or else the function that asks answers the error, and each of these is dropped. It does what `?` does,
/// but that one call drops each value. A `?` drops a value part by part, which takes the prover far longer where the value is a tree.
#[macro_export]
macro_rules! or_drop {
    ($result:expr; $($owned:ident),+) => {
        match $result {
            Ok(value) => value,
            Err(error) => {
                $(drop($owned);)+
                return Err(From::from(error));
            }
        }
    };
}
